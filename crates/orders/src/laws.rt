// Laws of the object and of orders. Each is the contract of a function that does nothing.
ghost use Rattle.orders.specs.Laws.{LegalListsLead, PlainHistoriesHavePlainOrders};

/// The legal lists of calls are exactly those that the object does one after another, and each
/// leads to one list of pairs.
pub fn legal_lists_lead()
    ensures { LegalListsLead }
{}

/// The orders of a history with neither starting pairs nor a replace are those by the definitions
/// that mention neither: from the empty map on, with the other four calls.
pub fn plain_histories_have_plain_orders()
    ensures { PlainHistoriesHavePlainOrders }
{}
