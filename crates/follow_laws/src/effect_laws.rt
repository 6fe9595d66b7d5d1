// Laws of calls as the keys see them. Each is the contract of a function that does nothing.
ghost use Rattle.follow_laws.specs.EffectLaws.{AboveIsNoYes, AlikeCallsDecide, AliveMayDie, BelowIsNoNo, CallsGrow, ChoicesBegin, ChoicesJudge, ChoicesStay, DeadChoicesGo, DeadChoicesStayDead, EffectsDecide, GrowthGoesOn, OrdersAreKeyedOrders, PartsJudge, PendingCallsDisturb, SetsOfKeysJudge, SomeKeysRefute};

/// The calls of events have an order exactly if two things hold: each scan has an answer that a
/// scan may have, and the calls have an order as the keys see them.
pub fn orders_are_keyed_orders()
    ensures { OrdersAreKeyedOrders }
{}

/// Further events make the calls grow.
pub fn calls_grow()
    ensures { CallsGrow }
{}

/// Growth in two steps is growth.
pub fn growth_goes_on()
    ensures { GrowthGoesOn }
{}

/// Before any event, one choice is above and below all events that may come. In it no call is
/// taken, and the keys hold what they hold at the start.
pub fn choices_begin()
    ensures { ChoicesBegin }
{}

/// Choices that are above or below the calls are so after further events too.
pub fn choices_stay()
    ensures { ChoicesStay }
{}

/// If no choice above goes on to an order now, there is no order. If a choice below does, there is
/// one.
pub fn choices_judge()
    ensures { ChoicesJudge }
{}

/// A choice that goes on to an order with further events goes on to one now.
pub fn dead_choices_stay_dead()
    ensures { DeadChoicesStayDead }
{}

/// A choice above that goes on to no order now may be dropped.
pub fn dead_choices_go()
    ensures { DeadChoicesGo }
{}

/// Calls that have an order have one at any set of keys. So a set of keys without an order refutes.
pub fn some_keys_refute()
    ensures { SomeKeysRefute }
{}

/// If each call parts a set of keys from the others, the calls have an order exactly if they have
/// one at each of the two sets. So a scan over both needs no common moment if only one of them has
/// changes in its range while it runs.
pub fn sets_of_keys_judge()
    ensures { SetsOfKeysJudge }
{}

/// Calls that many sets of keys part have an order exactly if they have one at each set.
pub fn parts_judge()
    ensures { PartsJudge }
{}

/// A choice that goes on to an order now may go on to none with further events.
pub fn alive_may_die()
    ensures { AliveMayDie }
{}

/// A choice above that goes on to an order gives no yes.
pub fn above_is_no_yes()
    ensures { AboveIsNoYes }
{}

/// Choices below that all go on to no order give no no.
pub fn below_is_no_no()
    ensures { BelowIsNoNo }
{}

/// Calls without effect do not matter: two lists with the same other calls both have orders, or
/// none.
pub fn effects_decide()
    ensures { EffectsDecide }
{}

/// If the other keys hold nothing, calls that are alike at some keys have an order exactly if the
/// others do.
pub fn alike_calls_decide()
    ensures { AlikeCallsDecide }
{}

/// A scan may be judged apart only if no call disturbs it, completed or pending. It is not enough
/// to look at the completed calls.
pub fn pending_calls_disturb()
    ensures { PendingCallsDisturb }
{}
