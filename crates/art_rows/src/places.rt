// Where the rows of a table are.
ghost use Rattle.std.specs.Prelude.{◌≡◌, ℕ, ◌<◌, ◌≤◌, ◌^◌, true, IfOk};
ghost use Rattle.art_rows.specs.Table.{first_base, rows_of, table_words, root_base, is_base_of, kind_at, opening, base_of};
ghost use Rattle.art_rows.specs.Table.{IsWithinLimits};
ghost use Rattle.art_rows.specs.Words.{child_of as child_in, is_small_child};

use crate::table::{Child, Kind, Shape};
use std::alloc::{AllocError, Global};

/// The words before the first row: the clock, and the claims of each kind.
const FIRST_ROW: u64 = 5;

/// The word that counts the claims of rows of kind 256.
const FULL_CLAIMS: usize = 4;

/// The info of the root: of kind 256, on level 0, with no path.
const ROOT_INFO: u64 = 3;

impl Shape {
    /// How many rows of a kind there are.
    pub fn rows(&self, kind: Kind) -> u64
        ensures { result ≡ rows_of self.now kind }
    {
        match kind {
            Kind::Four => u64::from(self.rows4),
            Kind::Sixteen => u64::from(self.rows16),
            Kind::FortyEight => u64::from(self.rows48),
            Kind::Full => u64::from(self.rows256),
        }
    }

    fn first(&self, kind: Kind) -> u64
        ensures { result ≡ first_base self.now kind }
    {
        match kind {
            Kind::Four => FIRST_ROW,
            Kind::Sixteen => FIRST_ROW + Kind::Four.words() * u64::from(self.rows4),
            Kind::FortyEight => {
                FIRST_ROW
                    + Kind::Four.words() * u64::from(self.rows4)
                    + Kind::Sixteen.words() * u64::from(self.rows16)
            }
            Kind::Full => {
                FIRST_ROW
                    + Kind::Four.words() * u64::from(self.rows4)
                    + Kind::Sixteen.words() * u64::from(self.rows16)
                    + Kind::FortyEight.words() * u64::from(self.rows48)
            }
        }
    }

    fn is_base(&self, kind: Kind, word: u64) -> bool
        ensures { result ≡ is_base_of self.now kind word }
    {
        let first = self.first(kind);
        first <= word
            && (word - first) % kind.words() == 0
            && (word - first) / kind.words() < self.rows(kind)
    }

    /// The kind of the row that begins at this word.
    pub fn kind(&self, word: u64) -> Option<Kind>
        ensures { result ≡ kind_at self.now word }
    {
        if self.is_base(Kind::Four, word) {
            Some(Kind::Four)
        } else if self.is_base(Kind::Sixteen, word) {
            Some(Kind::Sixteen)
        } else if self.is_base(Kind::FortyEight, word) {
            Some(Kind::FortyEight)
        } else if self.is_base(Kind::Full, word) {
            Some(Kind::Full)
        } else {
            None
        }
    }

    /// The base of a row by its number.
    pub fn base(&self, kind: Kind, number: u64) -> u32
        requires within { IsWithinLimits self.now }
        requires number { number < rows_of self.now kind }
        ensures { result ≡ base_of self.now kind number }
    {
        (self.first(kind) + kind.words() * number) as u32
    }

    /// The base of the root.
    pub fn root(&self) -> usize
        ensures { result ≡ root_base self.now }
    {
        self.first(Kind::Full) as usize
    }

    /// How many words the table has.
    pub fn words(&self) -> usize
        ensures { result ≡ table_words self.now }
    {
        self.root() + Kind::Full.words() as usize * self.rows256 as usize
    }

    /// The words of the table as it is opened.
    pub fn opening(&self, alloc: Global) -> Result<Vec<u64>, AllocError>
        requires root { 1 ≤ self.now.rows256 }
        ensures { IfOk result (λ words. words.items ≡ opening self.now) }
    {
        let mut words = vec![in alloc; 0; self.words()]?;
        words[FULL_CLAIMS] = 1;
        words[self.root() + 1] = ROOT_INFO;
        Ok(words)
    }

    /// What a child word says.
    pub fn child(&self, word: u64) -> Child
        requires { table_words self.now < 2 ^ 32 }
        ensures child { result ≡ child_in self.now word }
        ensures small { is_small_child result ≡ true }
    {
        if word % 4 == 1 {
            match self.kind(word / 4) {
                Some(kind) => Child::Row {
                    base: (word / 4) as u32,
                    kind,
                },
                None => Child::Empty,
            }
        } else if word % 4 == 2 {
            Child::Leaf {
                key: (word / 2u64.pow(32)) as u32,
                value: (word % 2u64.pow(32) / 4) as u32,
            }
        } else {
            Child::Empty
        }
    }
}
