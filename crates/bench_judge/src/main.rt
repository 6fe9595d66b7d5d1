//! The small program for `check` and `judge`. It uses no tree, no plan and no picture, so a first
//! verdict is proved and built in a fraction of the time.
//!
//! It takes the same command line as the whole program, and does the same. If the command line asks
//! for another subcommand, it is refused, and nothing is read.
#![tactic(auto)]

mod command;

use cli_io::{StandardError, StandardInput, StandardOutput, terminal_of};
use cli_outcome::{CommandOutcome, write_outcome};
use cli_words::{texts_of, words_of};
use command::run;
use std::process::ExitCode;

fn main(rt: HostRuntime) -> ExitCode {
    let mut source = StandardInput::new(rt.stdin());
    let mut output = StandardOutput::new(rt.stdout());
    let mut faults = StandardError::new(rt.stderr());
    let mut hints = terminal_of(rt.stderr());
    let words = match words_of(&rt, rt.alloc()) {
        Ok(words) => words,
        Err(outcome) => {
            let status = write_outcome(&mut output, &mut faults, &mut hints, &outcome);
            return ExitCode::from(status);
        }
    };
    let status = match texts_of(rt.alloc(), &words) {
        Ok(texts) => run(
            &rt,
            rt.alloc(),
            &mut source,
            &mut output,
            &mut faults,
            &mut hints,
            &texts,
        ),
        Err(_) => write_outcome(
            &mut output,
            &mut faults,
            &mut hints,
            &CommandOutcome::Memory,
        ),
    };
    ExitCode::from(status)
}
