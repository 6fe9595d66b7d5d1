// The versions of the texts of histories.
ghost use Rattle.std.specs.Prelude.{◌≡◌, ◌||◌, not};
ghost use Rattle.events.specs.PlainHistories.{is_replace};
ghost use Rattle.events.specs.Told.{is_complete};
ghost use Rattle.history_text.specs.Versions.{version_number, has_start, may_be_partial, has_notes};

use events::{Call, Reply};

/// The version of a text, which says what it may contain.
#[derive(Clone, Copy)]
pub enum TextVersion {
    /// The map is empty at the start, and there is no replace.
    One,
    /// The text says what the map holds at the start, and may have a replace.
    Two,
    /// The text may have partial answers, and its events may have notes, which nothing reads.
    Three,
}

impl TextVersion {
    /// Returns the number by which a text names its version.
    pub fn number(self) -> u64
        ensures { result ≡ version_number self }
    {
        match self {
            TextVersion::One => 1,
            TextVersion::Two => 2,
            TextVersion::Three => 3,
        }
    }

    /// Returns whether texts of this version have a start.
    pub fn has_start(self) -> bool
        ensures { result ≡ has_start self }
    {
        !matches!(self, TextVersion::One)
    }

    /// Returns whether the events of texts of this version may have a note.
    pub fn has_notes(self) -> bool
        ensures { result ≡ has_notes self }
    {
        matches!(self, TextVersion::Three)
    }

    /// Returns whether a text of this version may have a call: a replace needs a version with a
    /// start.
    pub fn may_have_call(self, call: &Call) -> bool
        ensures { result ≡ (has_start self || not (is_replace call.now)) }
    {
        self.has_start() || !matches!(call, Call::Replace(..))
    }

    /// Returns whether a text of this version may have a reply: a partial one needs version 3.
    pub fn may_have_reply(self, reply: &Reply) -> bool
        ensures { result ≡ (may_be_partial self || is_complete reply.now) }
    {
        matches!(self, TextVersion::Three) || reply.is_complete()
    }
}
