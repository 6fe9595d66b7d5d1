//! The program: it reads a text from standard input, or draws one, and writes its answer to
//! standard output.
//!
//! Each subcommand is an engine over any source and sinks. Its contract says what the outcome is
//! for what is read, and what is written. `run` does what the command line asks for. This file
//! gives it the command line and the standard streams.
#![tactic(auto)]

mod command;

use cli_dispatch::TerminalProgress;
use cli_io::{StandardError, StandardInput, StandardOutput, terminal_of};
use cli_outcome::{CommandOutcome, write_outcome};
use cli_words::{texts_of, words_of};
use command::run;
use std::process::ExitCode;

fn main(rt: HostRuntime) -> ExitCode {
    let mut source = StandardInput::new(rt.stdin());
    let mut output = StandardOutput::new(rt.stdout());
    let mut faults = StandardError::new(rt.stderr());
    let mut hints = terminal_of(rt.stderr());
    let mut progress = TerminalProgress::new(&rt, rt.stderr());
    let words = match words_of(&rt, rt.alloc()) {
        Ok(words) => words,
        Err(outcome) => {
            let status = write_outcome(&mut output, &mut faults, &mut hints, &outcome);
            return ExitCode::from(status);
        }
    };
    let status = match texts_of(rt.alloc(), &words) {
        Ok(texts) => run(
            &rt,
            rt.alloc(),
            &mut source,
            &mut output,
            &mut faults,
            &mut hints,
            &texts,
            &mut progress,
        ),
        Err(_) => write_outcome(
            &mut output,
            &mut faults,
            &mut hints,
            &CommandOutcome::Memory,
        ),
    };
    ExitCode::from(status)
}
