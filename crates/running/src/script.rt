// One process does its script.
ghost use Rattle.std.specs.Prelude.{◌≡◌, ◌<◌, ◌≤◌, ◌++◌, ◌∷◌, [], false, IsTrue, IfOk, OnOk, length, All};
ghost use Rattle.events.specs.Histories.{has_range, call_count};
ghost use Rattle.art_rows.specs.TreeCalls.{is_tree_call};
ghost use Rattle.recorder.specs.Passes.{process_number, calls_of, log_of, events_by, is_waiting};
ghost use Rattle.recorder.specs.Recorders.{IsPassOf};
ghost use Rattle.recorder.specs.declared.fault.RecorderFault.TheVariants as faults;
ghost use Rattle.running.specs.Drives.{invoked};
ghost use Rattle.running.specs.Passes.{AreOwn, AnswersFit, HasRecordedScript};

use art_rows::TreeCall;
use events::{Call, Memory};
use recorder::{Pass, Recorder, RecorderFault, Subject};

/// Does the calls of a script, one after another, and returns the pass that recorded them. It
/// returns `Err` if memory runs out.
pub(crate) fn do_script<S: Subject>(
    recorder: &Recorder,
    subject: &S,
    mut pass: Pass,
    script: &[TreeCall],
) -> Result<Pass, Memory>
    requires own { IsPassOf recorder.now pass }
    requires fresh { log_of pass ≡ [] }
    requires room { length script.now ≤ calls_of pass }
    requires calls { All (λ call. IsTrue (is_tree_call call)) script.now }
    ensures own { IfOk result (IsPassOf recorder.now) }
    ensures process { IfOk result (λ p. process_number p ≡ process_number pass) }
    ensures recorded { IfOk result (HasRecordedScript (S.may_answer subject.now) script.now) }
{
    for call in script {
        do_call(recorder, subject, &mut pass, call.call())?;
    }
    Ok(pass)
}

/// Lets the subject do a call, and notes its invocation before and its answer after. It returns
/// `Err` if memory runs out.
fn do_call<S: Subject>(
    recorder: &Recorder,
    subject: &S,
    pass: &mut Pass,
    call: Call,
) -> Result<(), Memory>
    requires own { IsPassOf recorder.now pass.old }
    requires range { IsTrue (has_range call) }
    requires idle { is_waiting pass.old ≡ false }
    requires room { call_count (events_by pass.old) < calls_of pass.old }
    ensures own { IsPassOf recorder.now pass.new }
    ensures same { (process_number pass.new ≡ process_number pass.old) × (calls_of pass.new ≡ calls_of pass.old) }
    ensures calls { OnOk result (invoked (events_by pass.new) ≡ invoked (events_by pass.old) ++ call ∷ []) }
    ensures idle { OnOk result (is_waiting pass.new ≡ false) }
    ensures events { AreOwn pass.old → OnOk result (AreOwn pass.new) }
    ensures answered { AreOwn pass.old → AnswersFit (S.may_answer subject.now) (events_by pass.old)
        → OnOk result (AnswersFit (S.may_answer subject.now) (events_by pass.new)) }
{
    if let Err(fault) = recorder.invoke(pass, call) {
        return Err(want_of_memory(fault));
    }
    let reply = subject.call(&call);
    if let Err(fault) = recorder.answer(pass, reply) {
        return Err(want_of_memory(fault));
    }
    Ok(())
}

/// Returns out of memory: the event has no fault, so this is the only reason why it was refused.
fn want_of_memory(fault: RecorderFault) -> Memory
    requires { fault ≡ faults.Memory }
{
    match fault {
        RecorderFault::Memory => Memory,
        RecorderFault::OutOfTurn | RecorderFault::TooMany => unreachable!(),
    }
}
