// From words to the line that they ask for.
ghost use Rattle.std.specs.Prelude.{◌≡◌, ◌<◌, ◌≤◌, ℕ, Bool, IfErr, IfOk, List, MatchResult, OnOk, Option, true};
ghost use Rattle.std.specs.Option.{option_map_or};
ghost use Rattle.clap.specs.Words.{Text, takes};
ghost use Rattle.clap.specs.Walk.{texts};
ghost use Rattle.command_line.specs.WordsFaults.{HasNamed, IsAccepted, IsFaultAt};
ghost use Rattle.command_line.specs.Limits.{budget_default, workers_default};
ghost use Rattle.command_line.specs.Lines.{asked_by, ChecksNumbers, Draws, Drives, IsCheck, IsDraw, IsDrive};
ghost use Rattle.command_line.specs.Lines.{IsJudge, IsLineOf, IsLocate, IsWithinLimits, switch_number};
ghost use Rattle.command_line.specs.Trees.{place_of, scheduled_place_of, strategy_place};
ghost use Rattle.command_line.specs.Numbers.{number_of};
ghost use Rattle.command_line.specs.Program.{bench_app, bench_table, draw_usage, drive_usage, explain_usage, follow_usage};
ghost use Rattle.command_line.specs.Program.{generate_usage, judge_usage, locate_usage, page_usage, schedule_usage};
ghost use Rattle.command_line.specs.Requests.{AreFlagsOf, IsAskable, IsRequestOf, asked_of, flags_of};
ghost use Rattle.command_line.specs.Tables.{Usage};
ghost use Rattle.command_line.specs.Words.{Given, Gives, IsUse};

use crate::asked::Request;
use crate::fault::LineFault;
use crate::line::{DriveLine, Line, Rows, ScheduleLine, Strategy, Tree};
use crate::program::{ABOUT, NAME, SUBCOMMANDS};
use crate::request::read_request;
use std::alloc::Global;

/// Returns what `words` ask for. The first word is the program's name.
///
/// The fault is `LineFault::Line`, with the text of `clap`, if the words are not a line of the
/// program or ask for help. It is `LineFault::Memory` if an allocation was refused. `clap` does not
/// check whether a value is one of the words that its option takes. The text for a wrong word is
/// worded as `clap` does it. The time grows with the number of words and with their length.
pub fn read_line<'a>(alloc: Global, words: &'a [&'a str]) -> Result<Line, LineFault>
    ensures line { IfOk result (IsLineOf (texts words.entry.now)) }
    ensures limits { IfOk result IsWithinLimits }
    ensures accepted { OnOk result (IsAccepted (texts words.entry.now)) }
    ensures refused { IfErr result (IsFaultAt (texts words.entry.now)) }
    // If `clap` takes the words by its own test, and each value is one of its option's words, only
    // memory can run out.
    ensures taken { takes bench_app (texts words.entry.now) ≡ true
        → HasNamed (texts words.entry.now) → IfErr result (λ e. e ≡ LineFault.Memory) }
    // Words of a subcommand, its options with their values in any order, and numbers of calls are
    // always a line. A switch has no value.
    ensures given { (usage : Usage) (given : List Given) (calls : List Text)
        → IsUse bench_table (texts words.entry.now) usage given calls
        → MatchResult result (λ line. Gives usage given calls (asked_by line))
        (λ e. e ≡ LineFault.Memory) }
    // `check` and numbers are always a line.
    ensures check { (calls : List (List ℕ)) → IsCheck (texts words.entry.now) calls
        → MatchResult result (ChecksNumbers calls) (λ e. e ≡ LineFault.Memory) }
    // `judge` is always a line, with or without either option, in either order.
    ensures judge { (budget workers : Option (List ℕ))
        → IsJudge (texts words.entry.now) budget workers
        → MatchResult result
        (λ line. line ≡ Line.Judge (option_map_or number_of budget budget_default)
        (option_map_or number_of workers workers_default))
        (λ e. e ≡ LineFault.Memory) }
    // `locate` is always a line, with or without its budget, and with or without `--order`, in
    // either order. It asks for an order exactly if `--order` is there.
    ensures locate { (budget : Option (List ℕ)) (order : Bool)
        → IsLocate (texts words.entry.now) budget order
        → MatchResult result
        (λ line. line ≡ Line.Locate (option_map_or number_of budget budget_default) order)
        (λ e. e ≡ LineFault.Memory) }
    // `draw` is always a line, with any of its options in any order.
    ensures draw { (given : List Given) → IsDraw (texts words.entry.now) given
        → MatchResult result (Draws given) (λ e. e ≡ LineFault.Memory) }
    // `drive` is always a line, with any of its options in any order.
    ensures drive { (given : List Given) → IsDrive (texts words.entry.now) given
        → MatchResult result (Drives given) (λ e. e ≡ LineFault.Memory) }
{
    match read_request(alloc, NAME, ABOUT, &SUBCOMMANDS, words) {
        Ok(request) => Ok(line_of(request)),
        Err(fault) => Err(fault),
    }
}

// Returns the line of a request.
fn line_of(request: Request<'_>) -> Line
    requires askable { IsAskable bench_table (asked_of request) }
    requires described { AreFlagsOf bench_table request.subcommand.now.name.now (flags_of request) }
    ensures same { asked_by result ≡ asked_of request.entry }
    ensures limits { IsWithinLimits result }
{
    match request.subcommand.name {
        "check" => Line::Check {
            order: request.calls,
        },
        "judge" => judge_line(&request),
        "locate" => locate_line(&request),
        "explain" => explain_line(&request),
        "draw" => draw_line(&request),
        "page" => page_line(&request),
        "follow" => follow_line(&request),
        "generate" => generate_line(&request),
        "schedule" => schedule_line(&request),
        "replay" => Line::Replay,
        "drive" => drive_line(&request),
        _ => unreachable!(),
    }
}

// Returns the line of `judge`.
fn judge_line(request: &Request<'_>) -> Line
    requires { IsRequestOf judge_usage request.now }
    ensures same { asked_by result ≡ asked_of request.now }
    ensures limits { IsWithinLimits result }
{
    Line::Judge {
        budget: request.number("budget"),
        workers: request.number("workers"),
    }
}

// Returns the line of `locate`.
fn locate_line(request: &Request<'_>) -> Line
    requires { IsRequestOf locate_usage request.now }
    ensures same { asked_by result ≡ asked_of request.now }
    ensures limits { IsWithinLimits result }
{
    Line::Locate {
        budget: request.number("budget"),
        order: is_given(request.number("order")),
    }
}

// Returns whether the switch with this number is given.
fn is_given(number: u32) -> bool
    requires { number ≤ 1 }
    ensures { switch_number result ≡ number }
{
    match number {
        0 => false,
        1 => true,
        _ => unreachable!(),
    }
}

// Returns the line of `explain`.
fn explain_line(request: &Request<'_>) -> Line
    requires { IsRequestOf explain_usage request.now }
    ensures same { asked_by result ≡ asked_of request.now }
    ensures limits { IsWithinLimits result }
{
    Line::Explain {
        budget: request.number("budget"),
    }
}

// Returns the line of `draw`.
fn draw_line(request: &Request<'_>) -> Line
    requires { IsRequestOf draw_usage request.now }
    ensures same { asked_by result ≡ asked_of request.now }
    ensures limits { IsWithinLimits result }
{
    Line::Draw {
        budget: request.number("budget"),
        workers: request.number("workers"),
        around: request.number("around"),
        calls: request.number("calls"),
    }
}

// Returns the line of `page`.
fn page_line(request: &Request<'_>) -> Line
    requires { IsRequestOf page_usage request.now }
    ensures same { asked_by result ≡ asked_of request.now }
    ensures limits { IsWithinLimits result }
{
    Line::Page {
        budget: request.number("budget"),
        workers: request.number("workers"),
    }
}

// Returns the line of `follow`.
fn follow_line(request: &Request<'_>) -> Line
    requires { IsRequestOf follow_usage request.now }
    ensures same { asked_by result ≡ asked_of request.now }
    ensures limits { IsWithinLimits result }
{
    Line::Follow {
        budget: request.number("budget"),
    }
}

// Returns the line of `generate`.
fn generate_line(request: &Request<'_>) -> Line
    requires { IsRequestOf generate_usage request.now }
    ensures same { asked_by result ≡ asked_of request.now }
    ensures limits { IsWithinLimits result }
{
    Line::Generate {
        seed: request.wide_number("seed"),
        processes: request.number("processes"),
        calls: request.number("calls"),
        get: request.number("get"),
        insert: request.number("insert"),
        remove: request.number("remove"),
        scan: request.number("scan"),
        lo: request.number("lo"),
        hi: request.number("hi"),
    }
}

// Returns the line of `schedule`.
fn schedule_line(request: &Request<'_>) -> Line
    requires { IsRequestOf schedule_usage request.now }
    ensures same { asked_by result ≡ asked_of request.now }
    ensures limits { IsWithinLimits result }
{
    let seed = request.wide_number("seed");
    Line::Schedule(ScheduleLine {
        seed,
        strategy: strategy_at(request.number("strategy")),
        depth: request.number("depth"),
        tree: scheduled_tree_at(request.number("tree")),
        rows: Rows {
            rows4: request.number("rows4"),
            rows16: request.number("rows16"),
            rows48: request.number("rows48"),
            rows256: request.number("rows256"),
        },
        limit: request.number("limit"),
    })
}

// Returns the strategy at this place in the list of words for strategies.
fn strategy_at(place: u32) -> Strategy
    requires { place < 3 }
    ensures { strategy_place result ≡ place }
{
    match place {
        0 => Strategy::Walk,
        1 => Strategy::Pos,
        2 => Strategy::Pct,
        _ => unreachable!(),
    }
}

// Returns the tree at this place in the list of those that a schedule runs.
fn scheduled_tree_at(place: u32) -> Tree
    requires { place < 6 }
    ensures { scheduled_place_of result ≡ place }
{
    match place {
        0 => Tree::Coupled,
        1 => Tree::Optimistic,
        2 => Tree::ReadUnchecked,
        3 => Tree::ScanUnvalidated,
        4 => Tree::LockUnchecked,
        5 => Tree::EarlyRelease,
        _ => unreachable!(),
    }
}

// Returns the line of `drive`.
fn drive_line(request: &Request<'_>) -> Line
    requires { IsRequestOf drive_usage request.now }
    ensures same { asked_by result ≡ asked_of request.now }
    ensures limits { IsWithinLimits result }
{
    Line::Drive(DriveLine {
        tree: tree_at(request.number("tree")),
        rows: Rows {
            rows4: request.number("rows4"),
            rows16: request.number("rows16"),
            rows48: request.number("rows48"),
            rows256: request.number("rows256"),
        },
        limit: request.number("limit"),
    })
}

// Returns the tree at this place in the list of words for trees.
fn tree_at(place: u32) -> Tree
    requires { place < 7 }
    ensures { place_of result ≡ place }
{
    match place {
        0 => Tree::Locked,
        1 => Tree::Coupled,
        2 => Tree::Optimistic,
        3 => Tree::ReadUnchecked,
        4 => Tree::ScanUnvalidated,
        5 => Tree::LockUnchecked,
        6 => Tree::EarlyRelease,
        _ => unreachable!(),
    }
}
