// Laws of verdicts. Each function only carries its clause; one that needs laws of other crates
// calls them.
ghost use Rattle.judge.specs.Laws.{FinishedVerdictsAgree, OneCallIsDecided, OneExactVerdict, OneReport};

use cutter::one_list_of_segments;
use history_text::one_history;
use merge_orders::one_merged_order;

/// Two finished verdicts on one history are both yes or both no, whatever their budgets were.
pub fn finished_verdicts_agree()
    ensures { FinishedVerdictsAgree }
{}

/// A history of one call has at most two configurations. So it is decided at every budget of two or
/// more.
pub fn one_call_is_decided()
    ensures { OneCallIsDecided }
{}

/// Only one verdict on a history is exact at a budget. So `judge_alone` and `judge` return the same
/// one, whatever the number of workers and their turns.
pub fn one_exact_verdict()
    ensures { OneExactVerdict }
{
    one_list_of_segments();
    one_merged_order();
}

/// One report is answered to a text at a budget.
pub fn one_report()
    ensures { OneReport }
{
    one_history();
    one_exact_verdict();
}
