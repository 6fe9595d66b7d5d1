// Why words ask for nothing.
ghost use Rattle.std.specs.Prelude.{◌≡◌};
ghost use Rattle.clap.specs.Words.{kind_of};
ghost use Rattle.command_line.specs.declared.fault.LineFault.TheVariants.{Memory};

use crate::table::{ValueOption, Values};
use clap::Error;
use clap::error::ErrorKind;
use std::alloc::{AllocError, AllocFailed, Global};
use std::fmt;

/// Why `read_line` returns no line.
#[derive(Drop)]
pub enum LineFault {
    /// The words are not a line of the program, or they ask for help. The text is printed for the
    /// user.
    Line(String),
    /// Memory ran out.
    Memory,
}

impl LineFault {
    /// Returns the fault for an error of `clap`, with the text of that error.
    pub(crate) fn of(alloc: Global, error: &Error) -> LineFault
        ensures { kind_of error.now ≡ ErrorKind.OutOfMemory → result ≡ LineFault.Memory }
    {
        if error.kind() == ErrorKind::OutOfMemory {
            return LineFault::Memory;
        }
        match error.to_string(alloc) {
            Ok(text) => LineFault::Line(text),
            Err(_) => LineFault::Memory,
        }
    }

    /// Returns the fault for a value that is not one of the words of its option.
    pub(crate) fn of_unknown_word<'o>(
        alloc: Global,
        option: &'o ValueOption<'o>,
        value: &str,
    ) -> LineFault {
        match (UnknownWord { option, value }).to_string(alloc) {
            Ok(text) => LineFault::Line(text),
            Err(_) => LineFault::Memory,
        }
    }
}

// A value that is not one of the words of its option.
#[derive(Clone, Copy)]
struct UnknownWord<'o, 'v> {
    option: &'o ValueOption<'o>,
    value: &'v str,
}

// Writes the text for such a value, in the words of `clap`.
impl fmt::Display for UnknownWord<'_, '_> {
    fn fmt<W: fmt::Write>(&self, f: &mut fmt::Formatter<W>) -> fmt::Result {
        let name = self.option.name;
        let value = self.value;
        write!(f, "error: invalid value '{value}' for '--{name} <NAME>'")?;
        if let Values::Among(words) = self.option.values {
            write_words(f, words)?;
        }
        f.write_str("\n\nFor more information, try '--help'.\n")
    }
}

// Writes the words that the value may be, on a line of their own.
fn write_words<W: fmt::Write>(f: &mut fmt::Formatter<W>, words: &[&str]) -> fmt::Result {
    f.write_str("\n  [possible values: ")?;
    let mut before = "";
    for word in words {
        write_after(f, before, word)?;
        before = ", ";
    }
    f.write_str("]")
}

// Writes a word, after another text.
fn write_after<W: fmt::Write>(f: &mut fmt::Formatter<W>, before: &str, word: &str) -> fmt::Result {
    f.write_str(before)?;
    f.write_str(word)
}

impl From<AllocError> for LineFault {
    ghost from_gives = { λ _ e. e ≡ Memory };

    fn from(_error: AllocError) -> LineFault {
        LineFault::Memory
    }
}

impl<T: Drop> From<AllocFailed<T>> for LineFault {
    ghost from_gives = { λ _ e. e ≡ Memory };

    fn from(_error: AllocFailed<T>) -> LineFault {
        LineFault::Memory
    }
}
