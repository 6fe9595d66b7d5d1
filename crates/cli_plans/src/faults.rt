// The outcomes for the faults of plans and of replays.
ghost use Rattle.std.specs.Prelude.{◌≡◌, IfOk, string_bytes};
ghost use Rattle.cli_plans.specs.Faults.{plan_fault_line, machine_fault_name, stop_line, replay_fault_line};
ghost use Rattle.cli_plans.specs.Faults.{IsDrawFaultOutcome, IsPlanFaultOutcome, IsReplayFaultOutcome};

use crate::wanted::{plan_expected, replay_expected, too_long_expected};
use cli_outcome::{CommandOutcome, expected_hint};
use plans::{MachineFault, PlanFault, RunFault};
use replays::{DrawFault, ReplayFault};
use std::alloc::{AllocError, Global};

/// The refusal if there is no plan, or `Memory` if memory ran out.
pub(crate) fn plan_fault_outcome(alloc: Global, fault: PlanFault) -> CommandOutcome
    ensures { IsPlanFaultOutcome fault result }
{
    match fault {
        PlanFault::Memory => CommandOutcome::Memory,
        _ => CommandOutcome::from_refusal(
            plan_fault_line(alloc, fault),
            expected_hint(alloc, plan_expected(fault)),
        ),
    }
}

/// The refusal of a text that gives no history of a replay, or `Memory` if memory ran out.
pub(crate) fn replay_fault_outcome(alloc: Global, fault: &ReplayFault) -> CommandOutcome
    ensures { IsReplayFaultOutcome fault.now result }
{
    match fault {
        ReplayFault::Memory => CommandOutcome::Memory,
        _ => CommandOutcome::from_refusal(
            replay_fault_line(alloc, fault),
            expected_hint(alloc, replay_expected(fault)),
        ),
    }
}

/// Returns the refusal of a schedule with more items than a replay may have, or `Memory`.
pub(crate) fn draw_fault_outcome(alloc: Global, fault: DrawFault) -> CommandOutcome
    ensures { IsDrawFaultOutcome fault result }
{
    match fault {
        DrawFault::Memory => CommandOutcome::Memory,
        DrawFault::TooManyItems => CommandOutcome::from_refusal(
            String::from_str(alloc, "schedule: 1 TooManyItems\n"),
            expected_hint(alloc, too_long_expected()),
        ),
    }
}

/// Why there is no plan.
fn plan_fault_line(alloc: Global, fault: PlanFault) -> Result<String, AllocError>
    ensures { IfOk result (λ line. string_bytes line ≡ plan_fault_line fault) }
{
    String::from_str(
        alloc,
        match fault {
            PlanFault::BadMix => "plan: 1 BadMix\n",
            PlanFault::BadRange => "plan: 2 BadRange\n",
            PlanFault::TooMany => "plan: 3 TooMany\n",
            PlanFault::Memory => "memory\n",
            PlanFault::TooLong => "plan: 5 TooLong\n",
            PlanFault::NotJson => "plan: 6 NotJson\n",
            PlanFault::Shape => "plan: 7 Shape\n",
        },
    )
}

/// The number and the name of a machine's fault.
fn machine_fault_name(fault: MachineFault) -> &'static str
    ensures { result.now ≡ machine_fault_name fault }
{
    match fault {
        MachineFault::NoProcess => "1 NoProcess",
        MachineFault::NothingToDo => "2 NothingToDo",
        MachineFault::TurnLimit => "3 TurnLimit",
        MachineFault::Memory => "4 Memory",
        MachineFault::TooLong => "5 TooLong",
        MachineFault::NotJson => "6 NotJson",
        MachineFault::Shape => "7 Shape",
        MachineFault::StartRefused => "8 StartRefused",
    }
}

/// Where a schedule stops, and why.
fn stop_line(alloc: Global, stop: &RunFault) -> Result<String, AllocError>
    ensures { IfOk result (λ line. string_bytes line ≡ stop_line stop.now) }
{
    let item = stop.item;
    let mut line = format!(in alloc; "schedule: item {item}: ")?;
    line.push_str(machine_fault_name(stop.fault))?;
    line.push_str("\n")?;
    Ok(line)
}

/// Why a text of a replay gives no history.
fn replay_fault_line(alloc: Global, fault: &ReplayFault) -> Result<String, AllocError>
    ensures { IfOk result (λ line. string_bytes line ≡ replay_fault_line fault.now) }
{
    match fault {
        ReplayFault::Replay(fault) => {
            let name = machine_fault_name(*fault);
            format!(in alloc; "replay: {name}\n")
        }
        ReplayFault::Schedule(stop) => stop_line(alloc, stop),
        ReplayFault::Memory => String::from_str(alloc, "memory\n"),
    }
}
