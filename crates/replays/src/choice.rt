// The choice of the process that makes the next turn. It is a process with something to do. None is
// chosen only if no process goes on. No contract says which of them it is.
ghost use Rattle.std.specs.Prelude.{◌≡◌, ◌≢◌, IsTrue, IsFalse, slice_index};
ghost use Rattle.art_rows.specs.Words.{is_locked};
ghost use Rattle.machine.specs.declared.next_steps.NextStep.TheVariants as steps;
ghost use Rattle.replays.specs.Rest.{DoesNotGoOn};

use crate::draw::{Draw, Strategy};
use art::Access;
use art_rows::version_is_locked;
use events::Memory;
use machine::{Machine, NextStep};
use rand_core::utils::NextWord;
use rand_pcg::Lcg64Xsh32;
use std::alloc::Global;

/// What the choice stores of a process: its priority, and the word that its last step loaded. A
/// priority is above those of all changes, or it is that of a change.
#[derive(Clone, Copy)]
struct Chosen {
    priority: u64,
    loaded: Option<usize>,
}

/// How the next turns are chosen.
#[derive(Drop)]
pub(crate) struct Choice {
    strategy: Strategy,
    generator: Lcg64Xsh32,
    processes: Vec<Chosen>,
    changes: Vec<u32>,
}

impl Choice {
    ghost use Rattle.std.specs.Prelude.{◌+◌, ◌≤◌, length, slice_get, IfOk, OnOk, IfSome};
    ghost use Rattle.art_core.specs.Core.{Plan, State};
    ghost use Rattle.machine.specs.Machines.{Shows};
    ghost use Rattle.machine.specs.NextSteps.{next_step_of};
    ghost use Rattle.machine.specs.Refusals.{HasMove};
    ghost use Rattle.replays.specs.Rest.{NoneGoesOn};

    /// The choice before the first turn, with the changes of priorities at turns below this number.
    pub(crate) fn new(
        alloc: Global,
        draw: &Draw,
        processes: usize,
        turns: u32,
    ) -> Result<Choice, Memory>
        ensures { IfOk result (λ choice. length choice.processes.items ≡ processes) }
    {
        let mut choice = Choice {
            strategy: draw.strategy,
            generator: Lcg64Xsh32::new(draw.seed, 0),
            processes: Vec::new(alloc),
            changes: Vec::new(alloc),
        };
        choice.add_processes(processes)?;
        choice.add_changes(draw.depth, turns)?;
        Ok(choice)
    }

    fn add_processes(&mut self, processes: usize) -> Result<(), Memory>
        ensures { OnOk result (length self.new.processes.items ≡ length self.old.processes.items + processes) }
    {
        for _ in 0..processes {
            let priority = self.drawn_priority();
            self.processes.push(Chosen {
                priority,
                loaded: None,
            })?;
        }
        Ok(())
    }

    /// Draws the turns at which a priority changes: one fewer than the depth, each below this number.
    fn add_changes(&mut self, depth: u32, turns: u32) -> Result<(), Memory>
        ensures { self.new.processes ≡ self.old.processes }
    {
        if turns == 0 {
            return Ok(());
        }
        for _ in 1..depth {
            let word = self.generator.next_word();
            self.changes.push(word % turns)?;
        }
        Ok(())
    }

    /// Draws a priority, which is above those of all changes.
    fn drawn_priority(&mut self) -> u64
        ensures { self.new.processes ≡ self.old.processes }
    {
        u64::from(self.generator.next_word()) + (1 << 32)
    }

    /// The process with the greatest priority, of those that go on. There is none if no process has
    /// anything left to do, or if each that has waits for a lock.
    pub(crate) fn next_process(&self, machine: &Machine) -> Option<usize>
        ensures some { (plan : Plan) (s : State) → Shows plan machine.now s → IfSome result (λ p. HasMove plan s p) }
        ensures none { (plan : Plan) (s : State) → Shows plan machine.now s
            → length s.processes ≤ length self.now.processes.items → result ≡ None → NoneGoesOn plan s }
    {
        let mut found = None;
        for (process, chosen) in self.processes.iter().enumerate() {
            found = self.first_of(machine, found, process, chosen.loaded);
        }
        found
    }

    /// Returns this process if it goes on and comes first, and else the one that was found. Its
    /// last step loaded this word.
    fn first_of(
        &self,
        machine: &Machine,
        found: Option<usize>,
        process: usize,
        loaded: Option<usize>,
    ) -> Option<usize>
        ensures some { (plan : Plan) (s : State) → Shows plan machine.now s → IfSome found (λ p. HasMove plan s p)
            → IfSome result (λ p. HasMove plan s p) }
        ensures none { (plan : Plan) (s : State) → Shows plan machine.now s → result ≡ None
            → (found ≡ None) × DoesNotGoOn s.words (next_step_of plan process (slice_get s.processes process)) }
    {
        if !goes_on(machine.words(), machine.next_step(process), loaded) {
            return found;
        }
        if self.is_first(process, found) {
            Some(process)
        } else {
            found
        }
    }

    /// Whether a process has a greater priority than the one that was found, if one was.
    fn is_first(&self, process: usize, found: Option<usize>) -> bool
        ensures { found ≡ None → IsTrue result }
    {
        match found {
            Some(found) => self.priority(process) > self.priority(found),
            None => true,
        }
    }

    fn priority(&self, process: usize) -> u64 {
        match self.processes.get(process) {
            Some(chosen) => chosen.priority,
            None => 0,
        }
    }

    /// Notes the turn of this number, from 0: the step of a process, after which the machine is as it is.
    pub(crate) fn note(&mut self, machine: &Machine, process: usize, step: NextStep, turn: u32)
        ensures { length self.new.processes.items ≡ length self.old.processes.items }
    {
        match self.strategy {
            Strategy::Walk => self.draw_again(machine, process, step, true),
            Strategy::Pos => self.draw_again(machine, process, step, false),
            Strategy::Pct => self.change(process, turn),
        }
        if let Some(chosen) = self.processes.get_mut(process) {
            chosen.loaded = loaded_by(step);
        }
    }

    /// Draws new priorities: of the process that made this step, and of each process whose next step races with it, or of all.
    fn draw_again(&mut self, machine: &Machine, process: usize, step: NextStep, all: bool)
        ensures { length self.new.processes.items ≡ length self.old.processes.items }
    {
        for other in 0..self.processes.len() {
            if all || other == process || races(step, machine.next_step(other)) {
                let priority = self.drawn_priority();
                self.set_priority(other, priority);
            }
        }
    }

    /// Gives a process a priority below all others, if one changes at this turn.
    fn change(&mut self, process: usize, turn: u32)
        ensures { length self.new.processes.items ≡ length self.old.processes.items }
    {
        if let Some(place) = self.changes.iter().position(|change| *change == turn) {
            self.set_priority(process, place as u64);
        }
    }

    fn set_priority(&mut self, process: usize, priority: u64)
        ensures { length self.new.processes.items ≡ length self.old.processes.items }
    {
        if let Some(chosen) = self.processes.get_mut(process) {
            chosen.priority = priority;
        }
    }
}

/// Whether a process with this next step has something to do, and does not load a locked word again.
fn goes_on(words: &[u64], step: NextStep, loaded: Option<usize>) -> bool
    ensures some { IsTrue result → step ≢ steps.Nothing }
    ensures none { IsFalse result → DoesNotGoOn words.now step }
{
    match step {
        NextStep::Nothing => false,
        NextStep::Stamp => true,
        NextStep::Access(access) => !waits(words, access, loaded),
    }
}

/// Whether an access loads a locked word again.
fn waits(words: &[u64], access: Access, loaded: Option<usize>) -> bool
    ensures { IsTrue result → DoesNotGoOn words.now (steps.Access access) }
{
    match access {
        Access::Load { word } => loaded == Some(word) && is_locked(words, word),
        _ => false,
    }
}

/// Whether there is a word at this place of a table that says that its row is locked.
fn is_locked(words: &[u64], word: usize) -> bool
    ensures { result ≡ is_locked (slice_index words.now word) }
{
    match words.get(word) {
        Some(version) => version_is_locked(*version),
        None => false,
    }
}

/// The word that a step loads.
fn loaded_by(step: NextStep) -> Option<usize> {
    match step {
        NextStep::Access(access) => loaded_word(access),
        _ => None,
    }
}

/// The word that an access loads, if it does nothing else.
fn loaded_word(access: Access) -> Option<usize> {
    match access {
        Access::Load { word } => Some(word),
        _ => None,
    }
}

/// Whether two steps race: they are on one word, and not both loads.
fn races(one: NextStep, other: NextStep) -> bool {
    match (one, other) {
        (NextStep::Stamp, NextStep::Stamp) => true,
        (NextStep::Access(one), NextStep::Access(other)) => {
            word_of(one) == word_of(other)
                && (loaded_word(one).is_none() || loaded_word(other).is_none())
        }
        _ => false,
    }
}

/// The word that an access is on.
fn word_of(access: Access) -> usize {
    match access {
        Access::Load { word }
        | Access::Store { word, .. }
        | Access::Exchange { word, .. }
        | Access::Add { word } => word,
    }
}
