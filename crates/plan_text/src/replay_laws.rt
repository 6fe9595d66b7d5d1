// Laws of the texts of replays: each function only carries its clause.
ghost use Rattle.plan_text.specs.ReplayTextLaws.{SpellsOneReplay, HasOneReplayFault, FaultySpellsNoReplay};

/// A text spells one replay only, so what `read_replay` answers is the only replay there is to read.
pub fn one_replay()
    ensures { SpellsOneReplay }
{}

/// A text has one fault only, apart from `Memory`, and a text with a fault spells no replay: so `read_replay` can answer in
/// one way only, unless memory runs out.
pub fn one_replay_fault()
    ensures one { HasOneReplayFault }
    ensures no_replay { FaultySpellsNoReplay }
{}
