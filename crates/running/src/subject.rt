// A plan is driven at a caller's subject.
ghost use Rattle.std.specs.Prelude.{◌≡◌, ◌≤◌, ◌∷◌, ◌++◌, [], map, length, vec_len, All, IfOk, OnOk, Ok};
ghost use Rattle.std.specs.List.{range_with_len};
ghost use Rattle.plans.specs.Plans.{AreTreeCalls};
ghost use Rattle.recorder.specs.Passes.{process_number};
ghost use Rattle.recorder.specs.Recorders.{calls_for_each};
ghost use Rattle.recorder.specs.Closing.{WantsMemory};
ghost use Rattle.running.specs.Drives.{IsDrivable, IsDriveOf};
ghost use Rattle.running.specs.Passes.{IsReady, IsPassAfter, EachIsAfter, AreAfter};

use crate::room::most_calls;
use crate::script::do_script;
use art_rows::TreeCall;
use events::{History, Memory};
use plans::Plan;
use recorder::{CloseFault, Pass, Recorder, Subject};
use std::alloc::{AllocError, Global};
use std::thread;
use std::thread::Threads;

/// Lets each process of the plan do its script at the subject, one call after another, in a thread
/// of its own. The process notes that a call begins, lets the subject do it, and notes the answer.
/// The history is that of the stamps.
///
/// A process that gets no thread does its script later, in the thread that was to start it. A
/// subject whose calls wait for those of other processes may then wait forever. The call returns
/// when all processes are done. Apart from the subject's work it costs a thread for each process,
/// and an atomic step for each event. It returns `Err` if memory runs out.
pub fn drive_subject<R: Threads + Sync, S: Subject + Sync>(
    rt: &R,
    alloc: Global,
    plan: &Plan,
    subject: &S,
) -> Result<History, Memory>
    requires { IsDrivable plan.now }
    ensures { IfOk result (λ h. IsDriveOf (S.may_answer subject.now) plan.now h) }
{
    let scripts = plan.scripts();
    let (recorder, passes) = Recorder::open(
        alloc,
        scripts.len() as u8,
        most_calls(scripts) as u32,
    )?;
    let passes = passes_after(rt, alloc, &recorder, subject, passes, scripts)?;
    match recorder.close(alloc, passes) {
        Ok(history) => Ok(history),
        Err(fault) => Err(want_of_memory(fault)),
    }
}

/// Returns the passes of all processes after their scripts, by process. It returns `Err` if memory
/// runs out.
fn passes_after<R: Threads + Sync, S: Subject + Sync>(
    rt: &R,
    alloc: Global,
    recorder: &Recorder,
    subject: &S,
    passes: Vec<Pass>,
    scripts: &[Vec<TreeCall>],
) -> Result<Vec<Pass>, Memory>
    requires ready { All (IsReady recorder.now (length scripts.now)) passes.items }
    requires numbers { map process_number passes.items ≡ range_with_len 0 (length scripts.now) }
    requires room { All (λ script. vec_len script ≤ calls_for_each recorder.now) scripts.now }
    requires calls { AreTreeCalls (map (λ script. script.items) scripts.now) }
    ensures many { IfOk result (λ after. length after.items ≡ length scripts.now) }
    ensures after { IfOk result (λ after. AreAfter (S.may_answer subject.now) recorder.now (map (λ script. script.items) scripts.now) after.items) }
{
    let done = do_scripts(rt, recorder, subject, passes, scripts)?;
    all_passes(alloc, done)
}

/// Lets all processes do their scripts, each in a thread of its own if one can be made. Returns
/// their results, by process.
fn do_scripts<R: Threads + Sync, S: Subject + Sync>(
    rt: &R,
    recorder: &Recorder,
    subject: &S,
    passes: Vec<Pass>,
    scripts: &[Vec<TreeCall>],
) -> Result<Vec<Result<Pass, Memory>>, AllocError>
    requires ready { All (IsReady recorder.now (length scripts.now)) passes.items }
    requires numbers { map process_number passes.items ≡ range_with_len 0 (length scripts.now) }
    requires room { All (λ script. vec_len script ≤ calls_for_each recorder.now) scripts.now }
    requires calls { AreTreeCalls (map (λ script. script.items) scripts.now) }
    ensures many { IfOk result (λ done. vec_len done ≡ length scripts.now) }
    ensures done { IfOk result (λ done. EachIsAfter (S.may_answer subject.now) recorder.now (map (λ script. script.items) scripts.now) done.items) }
{
    thread::map_vec(
        rt,
        passes,
        &|pass| { do_own_script(recorder, subject, pass, scripts) },
    )
}

/// Lets a process do its own script.
fn do_own_script<S: Subject>(
    recorder: &Recorder,
    subject: &S,
    pass: Pass,
    scripts: &[Vec<TreeCall>],
) -> Result<Pass, Memory>
    requires ready { IsReady recorder.now (length scripts.now) pass }
    requires room { All (λ script. vec_len script ≤ calls_for_each recorder.now) scripts.now }
    requires calls { AreTreeCalls (map (λ script. script.items) scripts.now) }
    ensures { IfOk result (IsPassAfter (S.may_answer subject.now) recorder.now (map (λ script. script.items) scripts.now) (process_number pass)) }
{
    let script = &scripts[usize::from(pass.process())];
    do_script(recorder, subject, pass, script)
}

/// Returns the passes of all processes, unless one of them ran out of memory.
fn all_passes(alloc: Global, done: Vec<Result<Pass, Memory>>) -> Result<Vec<Pass>, Memory>
    ensures { IfOk result (λ passes. done.items ≡ map (λ pass. Ok pass) passes.items) }
{
    let mut passes = Vec::with_capacity(alloc, done.len())?;
    for pass in done {
        put(&mut passes, pass)?;
    }
    Ok(passes)
}

/// Appends a pass, unless its process ran out of memory.
fn put(passes: &mut Vec<Pass>, pass: Result<Pass, Memory>) -> Result<(), Memory>
    ensures { OnOk result (map (λ pass. Ok pass) passes.new.items ≡ map (λ pass. Ok pass) passes.old.items ++ pass ∷ []) }
{
    passes.push(pass?)?;
    Ok(())
}

/// Returns out of memory, which is the only reason why a recorder was not closed.
fn want_of_memory(fault: CloseFault) -> Memory
    requires { WantsMemory fault }
{
    match fault {
        CloseFault::Memory(_, _) => Memory,
        CloseFault::StillOut(_, _) => unreachable!(),
    }
}
