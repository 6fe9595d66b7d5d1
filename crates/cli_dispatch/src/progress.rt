// How far a stream was followed, shown on a terminal.

use cli_follow::ProgressDisplay;
use std::io::{IsTerminal, Stderr, Write};
use std::time::{Clock, Instant};

/// Shows on standard error, if that is a terminal, how many calls were taken, and how many a second
/// since it last did so. It shows that once a second.
#[derive(Drop)]
pub struct TerminalProgress<'a, R> {
    rt: &'a R,
    terminal: Stderr,
    is_shown: bool,
    last: Option<Instant>,
    calls: usize,
}

impl<'a, R: Clock> TerminalProgress<'a, R> {
    /// A display that has shown nothing yet.
    pub fn new(rt: &'a R, terminal: Stderr) -> Self {
        let is_shown = terminal.is_terminal();
        TerminalProgress {
            rt,
            terminal,
            is_shown,
            last: None,
            calls: 0,
        }
    }
}

impl<R: Clock> ProgressDisplay for TerminalProgress<'_, R> {
    fn show(&mut self, calls: usize) {
        if !self.is_shown {
            return;
        }
        let Ok(now) = Instant::now(self.rt) else {
            return;
        };
        let Some(last) = self.last else {
            self.last = Some(now);
            return;
        };
        let passed = now.duration_since(last).as_millis();
        if passed < 1000 {
            return;
        }
        let rate = (calls.saturating_sub(self.calls) as u128) * 1000 / passed;
        let _ = writeln!(self.terminal, "{calls} calls, {rate} a second");
        self.last = Some(now);
        self.calls = calls;
    }
}
