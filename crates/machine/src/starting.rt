// The words on which a machine starts with pairs: another machine inserts them, and its clock is set back.
ghost use Rattle.std.specs.Prelude.{◌≡◌, [], ◌∷◌, ◌↔◌, IsTrue, IfOk, IfErr, Some, filter_map, map, slice_get, slice_set, All, Contains};
ghost use Rattle.events.specs.declared.event.Call.TheVariants.{Insert};
ghost use Rattle.events.specs.declared.event.Reply.TheVariants as replies;
ghost use Rattle.art_rows.specs.Table.{clock};
ghost use Rattle.art_rows.specs.TreeCalls.{is_tree_call};
ghost use Rattle.art_core.specs.declared.process.Process.{Process};
ghost use Rattle.art_core.specs.Core.{Plan, State, answered, finished};
ghost use Rattle.art_core.specs.Plans.{IsPlan};
ghost use Rattle.art_core.specs.Starts.{StartsOn, inserts, start_plan};
ghost use Rattle.plans.specs.declared.fault.MachineFault.TheVariants as faults;
ghost use Rattle.machine.specs.Machines.{Shows};
ghost use Rattle.machine.specs.Starting.{HasInserted, IsNotOpened};

use crate::machines::Machine;
use art::{Shape, TreeCall, Variant};
use art_core::Item;
use art_schedules::starts_end;
use events::{Call, Event, Memory, Reply};
use plans::MachineFault;
use std::alloc::Global;

/// Turns for the inserts of the pairs with which a machine starts: more than they take.
pub const START_TURNS: u32 = 4_000_000_000;

/// The words that inserts of the pairs leave, with the clock at 0.
pub fn starting_words(
    alloc: Global,
    shape: Shape,
    variant: Variant,
    start: &[(u64, u64)],
) -> Result<Vec<u64>, MachineFault>
    requires { IsPlan (start_plan shape variant start.now) }
    ensures words { IfOk result (λ words. StartsOn shape variant start.now words.items) }
    ensures refused { IfErr result (IsNotOpened shape variant start.now) }
{
    let machine = insert_pairs(alloc, shape, variant, start)?;
    if machine.has_refused(0) {
        return Err(MachineFault::StartRefused);
    }
    Ok(machine.into_words())
}

/// A machine that has inserted the pairs. `starts_end` is the law that the turns are enough for it.
fn insert_pairs(
    alloc: Global,
    shape: Shape,
    variant: Variant,
    start: &[(u64, u64)],
) -> Result<Machine, MachineFault>
    requires { IsPlan (start_plan shape variant start.now) }
    ensures inserted { IfOk result (HasInserted shape variant start.now) }
    ensures refused { IfErr result (IsNotOpened shape variant start.now) }
{
    starts_end();
    let scripts = match start_scripts(alloc, start) {
        Ok(scripts) => scripts,
        Err(_) => return Err(MachineFault::Memory),
    };
    let mut machine = Machine::open(alloc, shape, variant, scripts, START_TURNS)?;
    let all = Item::Turns {
        process: 0,
        turns: START_TURNS + 1,
    };
    match machine.make(alloc, all) {
        Ok(()) => unreachable!(),
        Err(fault) => {
            if is_at_the_end(fault) {
                Ok(machine)
            } else {
                Err(fault)
            }
        }
    }
}

/// Whether a turn was refused since nothing was left to do.
fn is_at_the_end(fault: MachineFault) -> bool
    ensures { IsTrue result ↔ (fault ≡ faults.NothingToDo) }
{
    fault == MachineFault::NothingToDo
}

/// One script, which inserts the pairs.
fn start_scripts(alloc: Global, start: &[(u64, u64)]) -> Result<Vec<Vec<TreeCall>>, Memory>
    requires { All (λ call. IsTrue (is_tree_call call)) (inserts start.now) }
    ensures { IfOk result (λ scripts. map (λ script. script.items) scripts.items ≡ inserts start.now ∷ []) }
{
    let mut scripts = Vec::new(alloc);
    scripts.push(start_script(alloc, start)?)?;
    Ok(scripts)
}

/// The calls that insert the pairs.
fn start_script(alloc: Global, start: &[(u64, u64)]) -> Result<Vec<TreeCall>, Memory>
    requires { All (λ call. IsTrue (is_tree_call call)) (inserts start.now) }
    ensures { IfOk result (λ script. script.items ≡ inserts start.now) }
{
    let mut script = Vec::new(alloc);
    for (key, value) in start {
        script.push(insert(*key, *value))?;
    }
    Ok(script)
}

/// The call that inserts a pair.
fn insert(key: u64, value: u64) -> TreeCall
    requires { IsTrue (is_tree_call (Insert key value)) }
    ensures { result ≡ Insert key value }
{
    match TreeCall::new(&Call::Insert(key, value)) {
        Some(call) => call,
        None => unreachable!(),
    }
}

impl Machine {
    /// Whether a call of the process was answered that it is refused.
    fn has_refused(&self, process: usize) -> bool
        ensures { (plan : Plan) (s : State) (q : Process) → Shows plan self.now s → slice_get s.processes process ≡ Some q
            → IsTrue result ↔ Contains (finished q) replies.Refused }
    {
        match self.runners.get(process) {
            Some(runner) => has_refusal(&runner.log),
            None => false,
        }
    }

    /// The words of the table, with the clock at 0.
    fn into_words(self) -> Vec<u64>
        ensures { (plan : Plan) (s : State) → Shows plan self s → result.items ≡ slice_set s.words clock 0 }
    {
        let mut words = self.words;
        words[0] = 0;
        words
    }
}

/// Whether a log has the answer that a call is refused.
fn has_refusal(log: &[(u64, Event)]) -> bool
    ensures { IsTrue result ↔ Contains (filter_map (λ e. answered e.1) log.now) replies.Refused }
{
    for (_, event) in log {
        if is_refusal(event) {
            return true;
        }
    }
    false
}

/// Whether an event answers that a call is refused.
fn is_refusal(event: &Event) -> bool
    ensures { IsTrue result ↔ (answered event.now ≡ Some replies.Refused) }
{
    match event {
        Event::Invoke { .. } => false,
        Event::Answer { reply, .. } => is_refused(reply),
    }
}

/// Whether a reply is that a call is refused.
fn is_refused(reply: &Reply) -> bool
    ensures { IsTrue result ↔ (reply.now ≡ replies.Refused) }
{
    matches!(reply, Reply::Refused)
}
