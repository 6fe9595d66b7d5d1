// The lines that the program writes.
ghost use Rattle.std.specs.Prelude.{◌≡◌, IfOk, string_bytes};
ghost use Rattle.cli_outcome.specs.Lines.{line, order_fault_line, history_fault_line};

use certificate::OrderFault;
use events::HistoryFault;
use std::alloc::{AllocError, Global};

/// Returns the text, and a line feed.
pub fn line_of(mut text: String) -> Result<String, AllocError>
    ensures { IfOk result (λ full. string_bytes full ≡ line (string_bytes text)) }
{
    text.push_str("\n")?;
    Ok(text)
}

/// Returns why a list of numbers is not an order.
pub fn order_fault_line(alloc: Global, fault: &OrderFault) -> Result<String, AllocError>
    ensures { IfOk result (λ line. string_bytes line ≡ order_fault_line fault.now) }
{
    match fault {
        OrderFault::Unknown { place } => format!(in alloc; "fault: 1 Unknown at place {place}\n"),
        OrderFault::Repeated { place } => format!(in alloc; "fault: 2 Repeated at place {place}\n"),
        OrderFault::Precedence { place } => format!(in alloc;
            "fault: 3 Precedence at place {place}\n"
        ),
        OrderFault::Reply { place } => format!(in alloc; "fault: 4 Reply at place {place}\n"),
        OrderFault::Missing { call } => format!(in alloc; "fault: 5 Missing call {call}\n"),
        OrderFault::Memory => String::from_str(alloc, "memory\n"),
    }
}

/// Returns why a history text was refused.
pub fn history_fault_line(alloc: Global, fault: &HistoryFault) -> Result<String, AllocError>
    ensures { IfOk result (λ line. string_bytes line ≡ history_fault_line fault.now) }
{
    match fault {
        HistoryFault::TooLong => String::from_str(alloc, "history: 1 TooLong\n"),
        HistoryFault::NotJson => String::from_str(alloc, "history: 2 NotJson\n"),
        HistoryFault::Version => String::from_str(alloc, "history: 3 Version\n"),
        HistoryFault::Shape { event } => format!(in alloc; "history: 4 Shape at event {event}\n"),
        HistoryFault::TooMany => String::from_str(alloc, "history: 5 TooMany\n"),
        HistoryFault::NotWellFormed { event } => {
            format!(in alloc; "history: 6 NotWellFormed at event {event}\n")
        }
        HistoryFault::Start { pair } => format!(in alloc; "history: 8 Start at pair {pair}\n"),
        HistoryFault::Memory => String::from_str(alloc, "memory\n"),
    }
}
