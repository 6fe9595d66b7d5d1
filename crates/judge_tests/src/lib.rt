//! Tests of what judges histories, and of the lines of streams, through public calls:
//!
//! - workers that meet and pass gates, and verdicts by one thread and by many;
//! - searches turn by turn, and configurations on their own;
//! - lines of sources that are cut at odd positions, or fail midway.
//!
//! The expected answers were worked out by hand. `tests/program/refused_allocations.py` runs four
//! of the tests with each allocation refused in turn.
#![tactic(auto)]

#[cfg(test)]
mod gate_first;
#[cfg(test)]
mod gates;
#[cfg(test)]
mod layers;
#[cfg(test)]
mod lines;
#[cfg(test)]
mod meetings;
#[cfg(test)]
mod memo_rows;
#[cfg(test)]
mod verdicts;
#[cfg(test)]
mod worked;
