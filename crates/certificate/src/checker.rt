// Whether a list of numbers is an order of a history.
ghost use Rattle.std.specs.Prelude.{◌≡◌, [], OnOk, IfErr};
ghost use Rattle.events.specs.Operations.{operations};
ghost use Rattle.orders.specs.Orders.{IsOrderOfHistory};
ghost use Rattle.certificate.specs.declared.fault.OrderFault.TheVariants as faults;
ghost use Rattle.certificate.specs.Faults.{IsRefusedFor};
ghost use Rattle.certificate.specs.Prefix.{IsPrefixOf};

use crate::fault::OrderFault;
use crate::prefix::Prefix;
use events::History;
use std::alloc::Global;

/// Tests whether the numbers are an order of the history, from the pairs that it starts with. They
/// have to name calls, each at most once, and every completed call. No later call may precede an
/// earlier one, and each completed call has to be answered as it was recorded.
///
/// If they are not an order, it returns the first fault: that of the least place that shows one. At
/// one place `Unknown` comes before `Repeated`, `Precedence` and `Reply`; `Missing` comes at the
/// end. `Memory` says nothing of the numbers. It goes once over the numbers and once over the
/// calls, does the map's work, and copies the starting pairs.
pub fn check(alloc: Global, history: &History, order: &[u32]) -> Result<(), OrderFault>
    ensures ok { OnOk result (IsOrderOfHistory history.now order.now) }
    ensures refused { IfErr result (IsRefusedFor history.now.start (operations history.now.events) order.now) }
    ensures accepted { IsOrderOfHistory history.now order.now
        → IfErr result (λ e. e ≡ faults.Memory) }
{
    let mut prefix = Prefix::new(alloc, history.start(), history.calls())?;
    take_numbers(alloc, history, &mut prefix, order)
}

/// Takes the numbers one by one, if none was taken before. At the end it reports a call that is
/// missing.
fn take_numbers(
    alloc: Global,
    history: &History,
    prefix: &mut Prefix,
    order: &[u32],
) -> Result<(), OrderFault>
    requires { IsPrefixOf history.now.start (operations history.now.events) [] prefix.old }
    ensures ok { OnOk result (IsOrderOfHistory history.now order.now) }
    ensures refused { IfErr result (IsRefusedFor history.now.start (operations history.now.events) order.now) }
    ensures accepted { IsOrderOfHistory history.now order.now
        → IfErr result (λ e. e ≡ faults.Memory) }
{
    let calls = history.calls();
    for (place, number) in order.iter().enumerate() {
        prefix.take(alloc, calls, place, *number)?;
    }
    match prefix.least_missing(calls) {
        Some(call) => Err(OrderFault::Missing { call }),
        None => Ok(()),
    }
}
