// Laws of words: each function only carries its clause.
ghost use Rattle.art_schedules.specs.words.Laws.{WordsAreReadBack, WordsAreSmall, VersionsSay};

/// What is written in a word of a row is what the word is read as.
pub fn words_are_read_back()
    ensures { WordsAreReadBack }
{}

/// The words that are written have 64 bits.
pub fn words_are_small()
    ensures { WordsAreSmall }
{}

/// Versions say what they were written to say.
pub fn versions_say()
    ensures { VersionsSay }
{}
