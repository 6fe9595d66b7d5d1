// Laws of the texts of histories: each function only carries its clause.
ghost use Rattle.history_text.specs.TextLaws.{SpellsOneHistory, HasOneFault, FaultySpellsNoHistory};

/// A text spells only one history. So `read_history` cannot return any other one.
pub fn one_history()
    ensures { SpellsOneHistory }
{}

/// A text has only one fault, apart from `Memory`, and a text with a fault spells no history. So
/// `read_history` can answer in only one way, unless memory runs out.
pub fn one_text_fault()
    ensures one { HasOneFault }
    ensures no_history { FaultySpellsNoHistory }
{}
