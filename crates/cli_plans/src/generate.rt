// `bench generate`: the text of the plan that is drawn from a seed.
ghost use Rattle.std.specs.Prelude.{◌<◌};
ghost use Rattle.cli_outcome.specs.Ends.{change};
ghost use Rattle.cli_plans.specs.Outcomes.{IsGenerateOutcome};
ghost use Rattle.cli_outcome.specs.Runs.{IsRun};

use crate::faults::plan_fault_outcome;
use cli_io::Sink;
use cli_outcome::{Answer, CommandOutcome, line_of, write_outcome};
use plan_text::write_plan;
use std::alloc::Global;
use workload::{Mix, plan};

/// Writes the text of the plan of this many processes, with this many calls each, that is drawn
/// from a seed. It reads nothing. Returns the exit status.
pub fn run_generate<O: Sink, F: Sink, H: Sink>(
    alloc: Global,
    output: &mut O,
    faults: &mut F,
    hints: &mut H,
    seed: u64,
    mix: &Mix,
    processes: u32,
    calls: u32,
) -> u8
    requires output { O.failures output.old < u64.MAX }
    requires faults { F.failures faults.old < u64.MAX }
    requires hints { H.failures hints.old < u64.MAX }
    ensures { IsRun (IsGenerateOutcome seed mix.now processes calls)
        (change O.written O.failures output.old output.new)
        (change F.written F.failures faults.old faults.new)
        (change H.written H.failures hints.old hints.new) result }
{
    let outcome = generate_outcome(alloc, seed, mix, processes, calls);
    write_outcome(output, faults, hints, &outcome)
}

/// The text of the plan that is drawn, or why none is.
pub fn generate_outcome(
    alloc: Global,
    seed: u64,
    mix: &Mix,
    processes: u32,
    calls: u32,
) -> CommandOutcome
    ensures { IsGenerateOutcome seed mix.now processes calls result }
{
    let plan = match plan(alloc, seed, mix, processes, calls) {
        Ok(plan) => plan,
        Err(fault) => return plan_fault_outcome(alloc, fault),
    };
    match write_plan(alloc, &plan) {
        Ok(text) => CommandOutcome::from_answer(Answer::Yes, line_of(text)),
        Err(_) => CommandOutcome::Memory,
    }
}
