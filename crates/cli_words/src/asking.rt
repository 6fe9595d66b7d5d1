// The words of the command line, and what they ask for.
ghost use Rattle.std.specs.Prelude.{◌≡◌, IfErr, IfOk, map, string_bytes};
ghost use Rattle.clap.specs.Walk.{texts};
ghost use Rattle.command_line.specs.WordsFaults.{IsAccepted};
ghost use Rattle.command_line.specs.Lines.{IsLineOf, IsWithinLimits};
ghost use Rattle.cli_words.specs.Outcomes.{IsUnsupportedOutcome, IsFaultOutcome};

use cli_outcome::CommandOutcome;
use command_line::{Line, LineFault, read_line};
use std::alloc::{Alloc, AllocError, Global};
use std::env;
use std::env::Env;
use std::io::ErrorKind;

/// Returns the words that the program was called with. The first word is the program's name. If a
/// word is not a text, returns the outcome of words with a fault.
pub fn words_of<R: Env + Alloc>(rt: &R, alloc: Global) -> Result<Vec<String>, CommandOutcome> {
    let words = match env::args(&(rt, alloc)) {
        Ok(words) => words.collect(alloc),
        Err(error) => {
            if error.kind() == ErrorKind::OutOfMemory {
                return Err(CommandOutcome::Memory);
            }
            return match String::from_str(alloc, "error: a word is no text\n") {
                Ok(text) => Err(CommandOutcome::Words(text)),
                Err(_) => Err(CommandOutcome::Memory),
            };
        }
    };
    match words {
        Ok(words) => Ok(words),
        Err(_) => Err(CommandOutcome::Memory),
    }
}

/// Returns the texts of the words.
pub fn texts_of(alloc: Global, words: &[String]) -> Result<Vec<&str>, AllocError>
    ensures { IfOk result (λ v. texts v.items ≡ map string_bytes words.now) }
{
    words.iter().map(|word| word.as_str()).collect(alloc)
}

/// Returns the line that the words ask for. The first word is the program's name. If the words have
/// a fault or memory runs out, returns that outcome.
pub fn asked_line(alloc: Global, words: &[&str]) -> Result<Line, CommandOutcome>
    ensures line { IfOk result (λ line. IsLineOf (texts words.entry.now) line
        × IsAccepted (texts words.entry.now)) }
    ensures limits { IfOk result IsWithinLimits }
    ensures refused { IfErr result (IsFaultOutcome (texts words.entry.now)) }
{
    match read_line(alloc, words) {
        Ok(line) => Ok(line),
        Err(LineFault::Line(text)) => Err(CommandOutcome::Words(text)),
        Err(LineFault::Memory) => Err(CommandOutcome::Memory),
    }
}

/// Returns the outcome if the words ask for something that this part of the program does not do. It
/// prints this text.
pub fn unsupported_outcome(alloc: Global, text: &str) -> CommandOutcome
    ensures { IsUnsupportedOutcome text.now result }
{
    match String::from_str(alloc, text) {
        Ok(text) => CommandOutcome::Words(text),
        Err(_) => CommandOutcome::Memory,
    }
}
