// Laws of white space around texts: each function only carries its clause.
ghost use Rattle.history_text.specs.WhiteSpaceLaws.{SpellsBetweenWhiteSpace, WhiteSpaceTellsNothing};

/// White space before and after a text changes neither whether it has a JSON value nor which value
/// it has.
pub fn white_space_tells_nothing()
    ensures { WhiteSpaceTellsNothing }
{}

/// A text with white space around it, such as the line feed after each text that the program
/// writes, spells the same history as without.
pub fn spells_between_white_space()
    ensures { SpellsBetweenWhiteSpace }
{}
