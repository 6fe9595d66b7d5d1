// Laws of what is said where a stream goes wrong.
ghost use Rattle.follow_monitor.specs.Laws.{DoubtsAreReached, LossesAreReached, NoDoubtWithoutOverlap, NothingIsMissed};

use follow_violations::values_are_reached;

/// What `key_losses` says of an undecided may be so. So may what it says of a no, if some map gives
/// the call this answer. Each value is left at its key by a legal order of calls. Some of the
/// invocations that are said to be left belong to none of its calls. Each answered call of the key
/// is in the order, or has one of these invocations. The call that is said to have put the value is
/// in the order, and puts it. All these keys belong to the part that does not go on.
pub fn losses_are_reached()
    ensures lost { LossesAreReached }
    ensures spent { DoubtsAreReached }
{
    values_are_reached();
}

/// The pasts of a part that the monitor has after some events miss nothing. Those of a no before
/// its answer (`IsLost`) miss nothing either. If a get of one of the part's keys may be given a
/// reply then, it may be given it after the calls that are left in one of these pasts.
pub fn nothing_is_missed()
    ensures { NothingIsMissed }
{}

/// If no two calls of a stream overlap, no answer is judged undecided, whatever the budget.
pub fn calls_without_overlap_are_decided()
    ensures { NoDoubtWithoutOverlap }
{}
