// Laws of how far an order of a few calls gets. Each function only carries its clause; one that
// needs other laws calls them.
ghost use Rattle.cli_explain.specs.Laws.{NoFrontIsLonger, NoNextCallIsLegal};

use call_effects::ranges_suffice;

/// No front of calls without order is longer than the longest that a search meets, unless more
/// configurations are reachable than the budget.
pub fn no_front_is_longer()
    ensures { NoFrontIsLonger }
{}

/// No call that is named as next after that front can come next, unless more configurations are
/// reachable than the budget. The map would answer it otherwise.
pub fn no_next_call_is_legal()
    ensures { NoNextCallIsLegal }
{
    ranges_suffice();
}
