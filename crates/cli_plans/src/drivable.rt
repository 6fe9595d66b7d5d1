// The plans that can be driven, and what is answered of the histories.
ghost use Rattle.std.specs.Prelude.{◌≡◌, ◌≤◌, IfOk, IfErr, string_bytes, string_len};
ghost use Rattle.serde_json.specs.Written.{compact_text};
ghost use Rattle.history_text.specs.Limits.{text_limit};
ghost use Rattle.history_text.specs.Texts.{history_data, Spells};
ghost use Rattle.cli_outcome.specs.Lines.{line};
ghost use Rattle.cli_plans.specs.Drives.{SpellsDrivable};
ghost use Rattle.cli_plans.specs.Outcomes.{IsUndrivenOutcome, IsHistoryOutcome};

use crate::faults::plan_fault_outcome;
use cli_outcome::{Answer, CommandOutcome, line_of};
use events::{History, Memory};
use history_text::{spells_between_white_space, write_history};
use plan_text::read_plan;
use plans::{Plan, PlanFault};
use running::is_drivable;
use std::alloc::Global;

/// The plan that a text spells, if it can be driven, or else the outcome that says why not.
pub(crate) fn drivable_plan(alloc: Global, text: &[u8]) -> Result<Plan, CommandOutcome>
    ensures plan { IfOk result (SpellsDrivable text.now) }
    ensures refused { IfErr result (IsUndrivenOutcome text.now) }
{
    let plan = match read_plan(alloc, text) {
        Ok(plan) => plan,
        Err(fault) => return Err(plan_fault_outcome(alloc, fault)),
    };
    if !is_drivable(&plan) {
        return Err(plan_fault_outcome(alloc, PlanFault::TooMany));
    }
    Ok(plan)
}

/// The text of a history as an answer, or `Memory` if memory runs out.
pub(crate) fn history_outcome(alloc: Global, history: &History) -> CommandOutcome
    ensures { IsHistoryOutcome history.now result }
{
    match history_line(alloc, history) {
        Ok(line) => CommandOutcome::Answered {
            answer: Answer::Yes,
            line,
        },
        Err(_) => CommandOutcome::Memory,
    }
}

/// The text of a history, and a line feed. The reader passes over the line feed, so what was written is read again.
fn history_line(alloc: Global, history: &History) -> Result<String, Memory>
    ensures compact { IfOk result (λ text. string_bytes text ≡ line (compact_text (history_data history.now))) }
    ensures again { IfOk result (λ text. string_len text ≤ text_limit → Spells (string_bytes text) history.now) }
{
    spells_between_white_space();
    let text = write_history(alloc, history)?;
    Ok(line_of(text)?)
}
