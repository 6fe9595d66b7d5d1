// The outcome of a run, before anything is written.
ghost use Rattle.std.specs.Prelude.{◌≡◌, MatchResult};
ghost use Rattle.cli_outcome.specs.FaultOutcomes.{IsOrderFaultOutcome};
ghost use Rattle.cli_outcome.specs.Statuses.{answer_status};

use crate::lines::order_fault_line;
use certificate::OrderFault;
use std::alloc::{AllocError, Global};

/// The exit status of an answer that is yes, `ok`, or a text.
pub const YES: u8 = 0;

/// The exit status of an answer that is no, or the fault of an order.
pub const NO: u8 = 1;

/// The exit status if the budget was spent without an answer.
pub const UNDECIDED: u8 = 2;

/// The exit status of an input that is refused.
pub const REFUSED: u8 = 3;

/// The exit status if memory ran out.
pub const MEMORY: u8 = 4;

/// The exit status if the command line asks for help, or for something that cannot be done.
pub const WORDS: u8 = 5;

/// The exit status if standard input or output failed.
pub const FAILED: u8 = 6;

/// The answer to an input.
#[derive(Clone, Copy)]
pub enum Answer {
    /// It is yes, `ok`, or a text.
    Yes,
    /// It is no, or the fault of an order.
    No,
    /// The budget was spent without an answer.
    Undecided,
}

impl Answer {
    /// Returns the exit status.
    pub fn status(self) -> u8
        ensures { result ≡ answer_status self }
    {
        match self {
            Answer::Yes => YES,
            Answer::No => NO,
            Answer::Undecided => UNDECIDED,
        }
    }
}

/// The outcome of a run. Each text ends with a line feed.
pub enum CommandOutcome {
    /// The input is answered, with this line for standard output.
    Answered {
        answer: Answer,
        line: String,
    },
    /// The input is answered, with a note on the answer for a person at the terminal.
    Noted {
        answer: Answer,
        line: String,
        note: String,
    },
    /// The input is refused, with this line for standard error. The hint says what was found and
    /// what was expected, for a person at the terminal.
    Refused {
        line: String,
        hint: String,
    },
    /// Memory ran out.
    Memory,
    /// The command line asks for help, or for something that cannot be done. The user gets this
    /// text on standard error.
    Words(String),
    /// The input could not be read.
    Failed,
}

impl Drop for CommandOutcome {
    fn drop(self) {
        match self {
            CommandOutcome::Answered {
                answer: _,
                line: _line,
            } => {}
            CommandOutcome::Noted {
                answer: _,
                line: _line,
                note: _note,
            } => {}
            CommandOutcome::Refused {
                line: _line,
                hint: _hint,
            } => {}
            CommandOutcome::Words(_words) => {}
            CommandOutcome::Memory | CommandOutcome::Failed => {}
        }
    }
}

impl CommandOutcome {
    /// Returns an answer with this line, if there was memory for the line.
    pub fn from_answer(answer: Answer, line: Result<String, AllocError>) -> CommandOutcome
        ensures { MatchResult line (λ text. result ≡ CommandOutcome.Answered answer text)
            (λ _. result ≡ CommandOutcome.Memory) }
    {
        match line {
            Ok(line) => CommandOutcome::Answered { answer, line },
            Err(_) => CommandOutcome::Memory,
        }
    }

    /// Returns an answer with this line and this note, if there was memory for both.
    pub fn with_note(
        answer: Answer,
        line: Result<String, AllocError>,
        note: Result<String, AllocError>,
    ) -> CommandOutcome
        ensures { MatchResult line
            (λ text. MatchResult note (λ words. result ≡ CommandOutcome.Noted answer text words)
            (λ _. result ≡ CommandOutcome.Memory))
            (λ _. result ≡ CommandOutcome.Memory) }
    {
        let Ok(line) = line else {
            return CommandOutcome::Memory;
        };
        match note {
            Ok(note) => CommandOutcome::Noted { answer, line, note },
            Err(_) => CommandOutcome::Memory,
        }
    }

    /// Returns a refusal with this line and this hint, if there was memory for both.
    pub fn from_refusal(
        line: Result<String, AllocError>,
        hint: Result<String, AllocError>,
    ) -> CommandOutcome
        ensures { MatchResult line
            (λ text. MatchResult hint (λ words. result ≡ CommandOutcome.Refused text words)
            (λ _. result ≡ CommandOutcome.Memory))
            (λ _. result ≡ CommandOutcome.Memory) }
    {
        let Ok(line) = line else {
            return CommandOutcome::Memory;
        };
        match hint {
            Ok(hint) => CommandOutcome::Refused { line, hint },
            Err(_) => CommandOutcome::Memory,
        }
    }

    /// Returns the answer that numbers are not an order, or out of memory.
    pub fn of_order_fault(alloc: Global, fault: &OrderFault) -> CommandOutcome
        ensures { IsOrderFaultOutcome fault.now result }
    {
        match fault {
            OrderFault::Memory => CommandOutcome::Memory,
            _ => CommandOutcome::from_answer(Answer::No, order_fault_line(alloc, fault)),
        }
    }
}
