//! Tests of what records histories, through public calls: tickets, the recorder, streams of bytes,
//! and a map under a lock. There are tests of a tree under a schedule, on the step machine and on
//! shared words by two groups of processes. Others are of drawn schedules, of texts of plans and
//! replays, and of plans that threads do on a tree or at a subject, where they meet at a gate or
//! within their calls. A proof covers what the contracts say.
//! These tests show that each call answers if memory is ample, and that threads overlap. They show
//! what is returned if a pass is missing, and how reads and writes behave that come in pieces and
//! fail midway. They also show that the definitions say what was meant: words, replies and orders
//! were worked out by hand.
#![tactic(auto)]

#[cfg(test)]
mod arenas;
#[cfg(test)]
mod drawn;
#[cfg(test)]
mod draws;
#[cfg(test)]
mod ends;
#[cfg(test)]
mod gate_first;
#[cfg(test)]
mod histories;
#[cfg(test)]
mod machines;
#[cfg(test)]
mod meetings;
#[cfg(test)]
mod plan_texts;
#[cfg(test)]
mod recorded;
#[cfg(test)]
mod replay_texts;
#[cfg(test)]
mod shapes;
#[cfg(test)]
mod subjects;
