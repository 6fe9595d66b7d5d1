// Laws of prefixes, each the contract of a function that does nothing.
ghost use Rattle.follow_monitor.specs.PrefixLaws.{
  PrefixesAreHistories,
  PrefixesHaveOrders,
  InvocationsKeepOrders,
  AnswersHaveCalls,
  AnswersHaveOneCall,
  OrdersAreLostAtAnswers,
  OneEventGoesWrong,
  HistoriesHaveFewEvents,
};

/// The first events of a history are a history from the same starting pairs.
pub fn prefixes_are_histories()
    ensures { PrefixesAreHistories }
{}

/// If a history has an order, its first events have one. It is the order of the whole up to its
/// first call that is invoked later, without the calls that are refused later. No call that the
/// first events answer comes after one that is invoked later.
pub fn prefixes_have_orders()
    ensures { PrefixesHaveOrders }
{}

/// A history that has an order still has it if one more call begins at the end.
pub fn invocations_keep_orders()
    ensures { InvocationsKeepOrders }
{}

/// Each response of a history is the answer of a call.
pub fn answers_have_calls()
    ensures { AnswersHaveCalls }
{}

/// An event of a history is the answer of one call at most.
pub fn answers_have_one_call()
    ensures { AnswersHaveOneCall }
{}

/// If the first events of a history have an order, and none with the next event, that event is the
/// answer of a call.
pub fn orders_are_lost_at_answers()
    ensures { OrdersAreLostAtAnswers }
{}

/// A history goes wrong at one event at most, and one that does has no order.
pub fn one_event_goes_wrong()
    ensures { OneEventGoesWrong }
{}

/// A history has at most two events for each call that one may have.
pub fn histories_have_few_events()
    ensures { HistoriesHaveFewEvents }
{}
