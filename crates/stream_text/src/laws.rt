// Laws of the lines of streams. Each function has only clauses, and no code.
ghost use Rattle.stream_text.specs.LineLaws.{SpellsOneEvent, SpellsOneFirst, TakesFirstLine};
ghost use Rattle.stream_text.specs.LineLaws.{HasOneLineFault, HasOneFirstFault, FaultySpellsNoEvent, FaultySpellsNoFirst};

/// A line spells only one event, and a first line only one thing. So reading a line finds all that
/// it spells.
pub fn one_event_line()
    ensures event { SpellsOneEvent }
    ensures first { SpellsOneFirst }
{}

/// A line has only one fault, apart from `Memory`, and a line with a fault spells nothing. So there
/// is only one result for a line, unless memory runs out.
pub fn one_line_fault()
    ensures event { HasOneLineFault }
    ensures first { HasOneFirstFault }
    ensures no_event { FaultySpellsNoEvent }
    ensures no_first { FaultySpellsNoFirst }
{}

/// The lines that `next_line` reads one after another are those of the source's bytes, in their
/// order.
pub fn lines_one_by_one()
    ensures { TakesFirstLine }
{}
