// Laws of what is drawn: each function only carries its clause.
ghost use Rattle.workload.specs.Laws.{WordsGiveTheseCalls, DrawnIsAPlan};

/// Words whose calls were worked out by hand.
pub fn calls_follow_the_words()
    ensures { WordsGiveTheseCalls }
{}

/// The scripts that are drawn are those of a plan.
pub fn drawn_scripts_are_a_plan()
    ensures { DrawnIsAPlan }
{}
