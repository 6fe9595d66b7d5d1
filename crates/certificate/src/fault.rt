// Why a list of numbers is not an order.
use events::Memory;

/// Why a list of numbers is not an order: the first place that shows a fault, or a call that is
/// missing at the end. Places count from 0.
#[derive(Clone, Copy, Debug, PartialEq, Eq)]
pub enum OrderFault {
    /// No call has the number at this place.
    Unknown { place: usize },
    /// The number at this place is also at an earlier place.
    Repeated { place: usize },
    /// The call at this place precedes one at an earlier place.
    Precedence { place: usize },
    /// The call at this place may not be answered there as it was recorded.
    Reply { place: usize },
    /// The least completed call whose number is absent.
    Missing { call: usize },
    /// Memory ran out, which says nothing of the list.
    Memory,
}

impl From<Memory> for OrderFault {
    ghost use Rattle.std.specs.Prelude.{◌≡◌};
    ghost use Rattle.certificate.specs.declared.fault.OrderFault.TheVariants as faults;

    ghost from_gives = { λ _ e. e ≡ faults.Memory };

    fn from(_memory: Memory) -> OrderFault {
        OrderFault::Memory
    }
}
