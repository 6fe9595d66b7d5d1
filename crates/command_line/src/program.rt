// The table of the program's subcommands and options.
use crate::table::{Subcommand, ValueOption, Values};

/// The program's name in its help.
pub(crate) const NAME: &str = "bench";

/// The description of the program in its help.
pub(crate) const ABOUT: &str =
    "Tests whether recorded histories of a concurrent ordered map are linearizable";

// An option with a default. Its help shows the default, the least number and the greatest.
macro_rules! number_option {
    ($name:literal, $help:literal, $least:literal to $greatest:literal, default $default:literal) => {
        ValueOption {
            name: $name,
            help: concat!($help, ", from ", $least, " to ", $greatest, " [default: ", $default, "]"),
            values: Values::Within($least, $greatest),
            default: Some($default),
        }
    };
}

// A required option. It takes a number from 0 to the greatest, which is by default that of a `u32`.
macro_rules! required_option {
    ($name:literal, $help:literal) => {
        required_option!($name, $help, u32::MAX as u64)
    };
    ($name:literal, $help:literal, $greatest:expr) => {
        ValueOption {
            name: $name,
            help: $help,
            values: Values::Within(0, $greatest),
            default: None,
        }
    };
}

// The option for the budget of a search.
macro_rules! budget_option {
    () => {
        number_option!("budget", "Most states of one search", 1 to 1000000, default 100000)
    };
}

// The options for the number of rows of each kind. The options before the semicolon come before
// them, and the others after them.
macro_rules! tree_options {
    ($($before:expr),* ; $($after:expr),*) => {
        &[
            $($before,)*
            number_option!("rows4", "Most nodes with up to 4 children", 0 to 4096, default 1024),
            number_option!("rows16", "Most nodes with up to 16 children", 0 to 1024, default 256),
            number_option!("rows48", "Most nodes with up to 48 children", 0 to 256, default 64),
            number_option!("rows256", "Most nodes with up to 256 children", 1 to 64, default 16),
            $($after),*
        ]
    };
}

// The options of a search, and other options after them.
macro_rules! search_options {
    ($($other:expr),*) => {
        &[
            budget_option!(),
            number_option!("workers", "Threads that search", 1 to 64, default 1),
            $($other),*
        ]
    };
}

/// The subcommands of the program.
pub(crate) static SUBCOMMANDS: [Subcommand<'static>; 11] = [
    Subcommand {
        name: "check",
        about: "Checks whether an order of operations is a linearization",
        options: &[],
        takes_calls: true,
    },
    Subcommand {
        name: "judge",
        about: "Reports whether the history on standard input is linearizable",
        options: search_options!(),
        takes_calls: false,
    },
    Subcommand {
        name: "locate",
        about: "Reports the response at which a history stops being linearizable",
        options: &[
            budget_option!(),
            ValueOption {
                name: "order",
                help: "Also prints an order of the operations before that response",
                values: Values::Switch,
                default: Some(0),
            },
        ],
        takes_calls: false,
    },
    Subcommand {
        name: "explain",
        about: "Shrinks a history that is not linearizable, and says why",
        options: &[budget_option!()],
        takes_calls: false,
    },
    Subcommand {
        name: "draw",
        about: "Draws the verdict on the history on standard input, as one SVG",
        options: search_options!(
            number_option!(
                "around",
                "The event to center on; 8192: none",
                0 to 8192,
                default 8192
            ),
            number_option!(
                "calls",
                "Operations drawn; 0: all, 4097: a few",
                0 to 4097,
                default 4097
            )
        ),
        takes_calls: false,
    },
    Subcommand {
        name: "page",
        about: "Shows the verdict on the history on standard input, as one HTML file",
        options: search_options!(),
        takes_calls: false,
    },
    Subcommand {
        name: "follow",
        about: "Monitors the events on standard input, one a line, as they come",
        options: &[budget_option!()],
        takes_calls: false,
    },
    Subcommand {
        name: "generate",
        about: "Draws a workload (plan): a script of operations for each process",
        options: &[
            required_option!("seed", "Seed of the operations", u64::MAX),
            required_option!("processes", "How many processes there are"),
            required_option!("calls", "How many operations each process has"),
            required_option!("get", "How many of a hundred operations are gets"),
            required_option!("insert", "How many of a hundred operations are inserts"),
            required_option!("remove", "How many of a hundred operations are removes"),
            required_option!("scan", "How many of a hundred operations are scans"),
            required_option!("lo", "The least key"),
            required_option!("hi", "The greatest key"),
        ],
        takes_calls: false,
    },
    Subcommand {
        name: "schedule",
        about: "Draws a schedule (replay) of a tree for the plan on standard input",
        options: tree_options!(
            required_option!("seed", "Seed of the schedule", u64::MAX),
            ValueOption {
                name: "strategy",
                help: "How each turn is drawn: walk, pos or pct [default: pos]",
                values: Values::Among(&["walk", "pos", "pct"]),
                default: Some(1),
            },
            number_option!("depth", "One more than the priority changes of pct", 1 to 64, default 3),
            ValueOption {
                name: "tree",
                help: "The tree: coupled, optimistic, read-unchecked, scan-unvalidated, lock-unchecked or early-release [default: optimistic]",
                values: Values::Among(&[
                    "coupled",
                    "optimistic",
                    "read-unchecked",
                    "scan-unvalidated",
                    "lock-unchecked",
                    "early-release",
                ]),
                default: Some(1),
            };
            number_option!("limit", "Most turns", 1 to 1_000_000, default 1_000_000)
        ),
        takes_calls: false,
    },
    Subcommand {
        name: "replay",
        about: "Runs trees by the replay on standard input, and writes the history",
        options: &[],
        takes_calls: false,
    },
    Subcommand {
        name: "drive",
        about: "Runs the plan on standard input on threads, and writes the history",
        options: tree_options!(
            ValueOption {
                name: "tree",
                help: "The map: locked, coupled, optimistic, read-unchecked, scan-unvalidated, lock-unchecked or early-release [default: optimistic]",
                values: Values::Among(&[
                    "locked",
                    "coupled",
                    "optimistic",
                    "read-unchecked",
                    "scan-unvalidated",
                    "lock-unchecked",
                    "early-release",
                ]),
                default: Some(2),
            };
            number_option!("limit", "Most steps of an operation", 1 to 1_000_000, default 1_000_000)
        ),
        takes_calls: false,
    },
];
