// Rounds of work by some threads.
ghost use Rattle.std.specs.Prelude.{◌≤◌};
ghost use Rattle.recorder.specs.Recorders.{IsPassOf};

use art::{Shape, Variant};
use events::{Call, Memory, Reply};
use pool::OpenGate;
use recorder::{Pass, Recorder};
use running::{drive_arena, is_drivable};
use std::alloc::Global;
use std::sync::atomic::{AtomicU64, Ordering};
use std::thread;
use std::thread::Threads;
use workload::{Mix, plan};

/// How many calls a thread notes in a round.
const CALLS: u32 = 1024;

/// The seed from which the scripts are drawn.
const SEED: u64 = 7;

/// Rows for all keys of a round.
const SHAPE: Shape = Shape {
    rows4: 1024,
    rows16: 256,
    rows48: 64,
    rows256: 16,
};

/// More steps than a call takes here.
const LIMIT: u32 = 1_000_000;

/// What a thread does in a round.
#[derive(Clone, Copy)]
pub(crate) enum RoundWork {
    /// It notes calls and their answers at a recorder.
    Recorder,
    /// It does the calls of a script, on one tree for all threads.
    Tree(Variant),
    /// It adds to a word that all threads share, once for each invocation and once for each answer.
    Word,
    /// It does nothing: what is left is the time of the threads.
    Neither,
}

impl RoundWork {
    /// Returns the work of a name.
    pub(crate) fn of_name(name: &str) -> Option<RoundWork> {
        match name {
            "recorder" => Some(RoundWork::Recorder),
            "coupled" => Some(RoundWork::Tree(Variant::Coupled)),
            "optimistic" => Some(RoundWork::Tree(Variant::Optimistic)),
            "word" => Some(RoundWork::Word),
            "neither" => Some(RoundWork::Neither),
            _ => None,
        }
    }
}

/// Returns how many events are noted, or additions made, in this many rounds of this many threads.
pub(crate) fn done_in<R: Threads + Sync>(
    rt: &R,
    alloc: Global,
    work: RoundWork,
    threads: u8,
    rounds: u32,
) -> Result<u64, Memory>
    requires { (1 ≤ threads) × (threads ≤ 4) }
{
    let word = AtomicU64::new(0);
    let mut done: u64 = 0;
    for _ in 0..rounds {
        let by_thread = match work {
            RoundWork::Recorder => record_rounds(rt, alloc, threads)?,
            RoundWork::Tree(variant) => drive_tree(rt, alloc, variant, threads)?,
            RoundWork::Word => thread::map_indices(
                rt,
                alloc,
                usize::from(threads),
                &|_| add_all(&word),
            )?,
            RoundWork::Neither => thread::map_indices(rt, alloc, usize::from(threads), &|_| 0)?,
        };
        for by_one in by_thread {
            done = done.wrapping_add(by_one);
        }
    }
    Ok(done)
}

/// Returns how many events each of some threads noted at one recorder.
fn record_rounds<R: Threads + Sync>(rt: &R, alloc: Global, threads: u8) -> Result<Vec<u64>, Memory>
    requires { (1 ≤ threads) × (threads ≤ 4) }
{
    let (recorder, passes) = Recorder::open(alloc, threads, CALLS)?;
    Ok(thread::map_vec(rt, passes, &|pass| note_all(&recorder, pass))?)
}

/// Notes calls and their answers, and returns how many events were noted.
fn note_all(recorder: &Recorder, mut pass: Pass) -> u64
    requires { IsPassOf recorder.now pass }
{
    let mut done: u64 = 0;
    for _ in 0..CALLS {
        if recorder.invoke(&mut pass, Call::Get(0)).is_ok() {
            done = done.wrapping_add(1);
        }
        if recorder.answer(&mut pass, Reply::None).is_ok() {
            done = done.wrapping_add(1);
        }
    }
    done
}

/// Returns how many events were noted while each of some threads did its script on one tree.
fn drive_tree<R: Threads + Sync>(
    rt: &R,
    alloc: Global,
    variant: Variant,
    threads: u8,
) -> Result<Vec<u64>, Memory> {
    let mix = Mix {
        get: 40,
        insert: 30,
        remove: 20,
        scan: 10,
        lo: 0,
        hi: 10_000,
    };
    let Ok(plan) = plan(alloc, SEED, &mix, u32::from(threads), CALLS) else {
        return Err(Memory);
    };
    let mut done = Vec::new(alloc);
    if is_drivable(&plan) {
        let history = drive_arena(rt, alloc, &plan, SHAPE, variant, LIMIT, &OpenGate)?;
        done.push(history.events().len() as u64)?;
    }
    Ok(done)
}

/// Adds to a shared word as often, and returns how many additions were made.
fn add_all(word: &AtomicU64) -> u64 {
    for _ in 0..2 * CALLS {
        word.fetch_add(1, Ordering::SeqCst);
    }
    u64::from(2 * CALLS)
}
