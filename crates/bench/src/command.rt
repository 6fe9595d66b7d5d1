// Does what the command line asks for.
ghost use Rattle.std.specs.Prelude.{◌≡◌, ◌<◌};
ghost use Rattle.clap.specs.Walk.{texts};
ghost use Rattle.command_line.specs.Lines.{IsWithinLimits};
ghost use Rattle.cli_outcome.specs.Ends.{change};
ghost use Rattle.cli_outcome.specs.Runs.{IsRun};
ghost use Rattle.cli_outcome.specs.Statuses.{words_status};
ghost use Rattle.cli_words.specs.Outcomes.{IsWordsOutcome};
ghost use Rattle.bench.specs.Outcomes.{IsLineOutcome, shape_of, variant_of};

use art::{Shape, Variant};
use cli_dispatch::{ProgressDisplay, run_line};
use cli_io::{Sink, Source};
use cli_outcome::write_outcome;
use cli_plans::{run_drive, run_generate, run_replay, run_schedule, run_tree_drive};
use cli_words::asked_line;
use command_line::{DriveLine, Line, Rows, ScheduleLine, Strategy, Tree};
use pool::OpenGate;
use recorder::LockedMap;
use replays::Draw;
use std::alloc::Global;
use std::sync::Wait;
use std::thread::Threads;
use workload::Mix;

/// Does what the command line asks for, and returns the exit status. The command line begins with
/// the program's name. Nothing stops workers before a segment that they search, or the processes of
/// a drive before they begin. A terminal shows how far a stream was followed.
pub fn run<R: Threads + Wait + Sync, S: Source, O: Sink, F: Sink, H: Sink, P: ProgressDisplay>(
    rt: &R,
    alloc: Global,
    source: &mut S,
    output: &mut O,
    faults: &mut F,
    hints: &mut H,
    words: &[&str],
    progress: &mut P,
) -> u8
    requires source { S.failures source.old < u64.MAX }
    requires output { O.failures output.old < u64.MAX }
    requires faults { F.failures faults.old < u64.MAX }
    requires hints { H.failures hints.old < u64.MAX }

    // The outcome is that of what the command line asks for, or of its fault.
    ensures run { IsRun
        (IsWordsOutcome IsLineOutcome (texts words.entry.now) (change S.remaining S.failures source.old source.new))
        (change O.written O.failures output.old output.new)
        (change F.written F.failures faults.old faults.new)
        (change H.written H.failures hints.old hints.new) result }

    // If the command line has a fault, nothing is read.
    ensures unread { result ≡ words_status → source.new ≡ source.old }
{
    let line = match asked_line(alloc, words) {
        Ok(line) => line,
        Err(outcome) => return write_outcome(output, faults, hints, &outcome),
    };
    match line {
        Line::Generate {
            seed,
            processes,
            calls,
            get,
            insert,
            remove,
            scan,
            lo,
            hi,
        } => {
            let mix = Mix {
                get,
                insert,
                remove,
                scan,
                lo,
                hi,
            };
            run_generate(alloc, output, faults, hints, seed, &mix, processes, calls)
        }
        Line::Schedule(asked) => schedule(alloc, source, output, faults, hints, asked),
        Line::Replay => run_replay(alloc, source, output, faults, hints),
        Line::Drive(asked) => drive(rt, alloc, source, output, faults, hints, asked),
        _ => run_line(rt, alloc, source, output, faults, hints, line, progress),
    }
}

/// Draws a schedule of the plan on the source, and returns the exit status.
fn schedule<S: Source, O: Sink, F: Sink, H: Sink>(
    alloc: Global,
    source: &mut S,
    output: &mut O,
    faults: &mut F,
    hints: &mut H,
    asked: ScheduleLine,
) -> u8
    requires source { S.failures source.old < u64.MAX }
    requires output { O.failures output.old < u64.MAX }
    requires faults { F.failures faults.old < u64.MAX }
    requires hints { H.failures hints.old < u64.MAX }
    requires limits { IsWithinLimits (Line.Schedule asked) }
    ensures run { IsRun
        (IsLineOutcome (Line.Schedule asked) (change S.remaining S.failures source.old source.new))
        (change O.written O.failures output.old output.new)
        (change F.written F.failures faults.old faults.new)
        (change H.written H.failures hints.old hints.new) result }
    ensures unread { result ≡ words_status → source.new ≡ source.old }
{
    let Some(variant) = variant_of(asked.tree) else {
        unreachable!()
    };
    let shape = shape_of(asked.rows);
    let draw = Draw {
        seed: asked.seed,
        strategy: strategy_of(asked.strategy),
        depth: asked.depth,
    };
    let limit = asked.limit;
    run_schedule(
        alloc, source, output, faults, hints, shape, variant, limit, &draw,
    )
}

/// Does the plan on the source, and returns the exit status.
fn drive<R: Threads + Wait + Sync, S: Source, O: Sink, F: Sink, H: Sink>(
    rt: &R,
    alloc: Global,
    source: &mut S,
    output: &mut O,
    faults: &mut F,
    hints: &mut H,
    asked: DriveLine,
) -> u8
    requires source { S.failures source.old < u64.MAX }
    requires output { O.failures output.old < u64.MAX }
    requires faults { F.failures faults.old < u64.MAX }
    requires hints { H.failures hints.old < u64.MAX }
    requires limits { IsWithinLimits (Line.Drive asked) }
    ensures run { IsRun
        (IsLineOutcome (Line.Drive asked) (change S.remaining S.failures source.old source.new))
        (change O.written O.failures output.old output.new)
        (change F.written F.failures faults.old faults.new)
        (change H.written H.failures hints.old hints.new) result }
    ensures unread { result ≡ words_status → source.new ≡ source.old }
{
    let Some(variant) = variant_of(asked.tree) else {
        let map = LockedMap::new(rt, alloc);
        return run_drive(rt, alloc, source, output, faults, hints, &map);
    };
    let shape = shape_of(asked.rows);
    let limit = asked.limit;
    run_tree_drive(
        rt, alloc, source, output, faults, hints, shape, variant, limit, &OpenGate,
    )
}

/// Returns the shape of a table with these rows.
fn shape_of(rows: Rows) -> Shape
    ensures { result ≡ shape_of rows }
{
    Shape {
        rows4: rows.rows4,
        rows16: rows.rows16,
        rows48: rows.rows48,
        rows256: rows.rows256,
    }
}

/// Returns the variant of a tree on shared words; `Tree::Locked` has none.
fn variant_of(tree: Tree) -> Option<Variant>
    ensures { result ≡ variant_of tree }
{
    match tree {
        Tree::Locked => None,
        Tree::Coupled => Some(Variant::Coupled),
        Tree::Optimistic => Some(Variant::Optimistic),
        Tree::ReadUnchecked => Some(Variant::ReadUnchecked),
        Tree::ScanUnvalidated => Some(Variant::ScanUnvalidated),
        Tree::LockUnchecked => Some(Variant::LockUnchecked),
        Tree::EarlyRelease => Some(Variant::EarlyRelease),
    }
}

/// Returns the strategy by which a schedule is drawn.
fn strategy_of(strategy: Strategy) -> replays::Strategy {
    match strategy {
        Strategy::Walk => replays::Strategy::Walk,
        Strategy::Pos => replays::Strategy::Pos,
        Strategy::Pct => replays::Strategy::Pct,
    }
}
