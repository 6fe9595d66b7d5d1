// Laws of locations. Each is the contract of a function that does nothing.
ghost use Rattle.explain_locate.specs.Laws.{LocationsAgree, OneLocationWhereJudged, OrdersAreFoundWhereJudged};

use follow_monitor::{answers_have_one_call, one_event_goes_wrong, prefixes_are_histories};
use judge::one_exact_verdict;

/// The answers of `locate` to one history at any two budgets agree. If one names an event, the
/// other names the same event and call, or is undecided at that event or before it.
pub fn locations_agree()
    ensures { LocationsAgree }
{
    one_event_goes_wrong();
    answers_have_one_call();
}

/// All answers of `locate` at a budget have one report, if the judge's verdicts on first events at
/// that budget say where the history goes wrong.
pub fn one_location_where_judged()
    ensures { OneLocationWhereJudged }
{
    locations_agree();
    one_exact_verdict();
    prefixes_are_histories();
}

/// An order of the events before the one that goes wrong is found at a budget, if the judge's
/// verdicts on first events at that budget say where that is.
pub fn orders_are_found_where_judged()
    ensures { OrdersAreFoundWhereJudged }
{
    one_exact_verdict();
    one_event_goes_wrong();
    prefixes_are_histories();
}
