// What the kind of a row says of the row.
ghost use Rattle.std.specs.Prelude.{◌≡◌, ◌≤◌};
ghost use Rattle.art_rows.specs.Table.{capacity, row_words};
ghost use Rattle.art_rows.specs.Words.{kind_code};

use crate::table::Kind;

impl Kind {
    /// How many children a row of this kind can have.
    pub fn capacity(self) -> u32
        ensures { result ≡ capacity self }
    {
        match self {
            Kind::Four => 4,
            Kind::Sixteen => 16,
            Kind::FortyEight => 48,
            Kind::Full => 256,
        }
    }

    /// How many words a row of this kind has.
    pub(crate) fn words(self) -> u64
        ensures { result ≡ row_words self }
    {
        match self {
            Kind::Four => 7,
            Kind::Sixteen => 21,
            Kind::FortyEight => 83,
            Kind::Full => 258,
        }
    }

    /// The number by which an info word says this kind.
    pub(crate) fn code(self) -> u64
        ensures code { result ≡ kind_code self }
        ensures most { result ≤ 3 }
    {
        match self {
            Kind::Four => 0,
            Kind::Sixteen => 1,
            Kind::FortyEight => 2,
            Kind::Full => 3,
        }
    }
}
