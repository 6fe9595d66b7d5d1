// The steps of one process.
ghost use Rattle.std.specs.Prelude.{◌≡◌, ◌≢◌, ◌<◌, ◌≤◌, ℕ, List, [], ◌∷◌, ◌++◌, length, slice_get, Some, None, is_some, OnOk, OnErr};
ghost use Rattle.std.specs.Prelude.{vec_len, vec_capacity};
ghost use Rattle.events.specs.declared.event.Event.TheVariants.{Answer};
ghost use Rattle.art_rows.specs.Steps.{reply_of};
ghost use Rattle.events.specs.declared.event.Call.{Call};
ghost use Rattle.art_core.specs.Core.{Plan};
ghost use Rattle.art_core.specs.declared.process.Process.{Process};
ghost use Rattle.art_rows.specs.declared.table.Shape.{Shape};
ghost use Rattle.art_rows.specs.Table.{table_words};
ghost use Rattle.art_rows.specs.declared.variant.Variant.{Variant};
ghost use Rattle.art_rows.specs.Fits.{Fits};
ghost use Rattle.art.specs.Tasks.{rest_of, shape_of, IsReady};
ghost use Rattle.art.specs.Doings.{IsFor, IsAnswered, after_access};
ghost use Rattle.machine.specs.Fitting.{Advances};

use crate::runner::Runner;
use crate::table::{access, stamp};
use art::{Doing, Point, Shape, Task, Variant};
use events::{Event, Memory, Reply};
use std::alloc::Global;
use std::mem;

/// Makes the next access of an open call: its reply, once it is known.
pub fn advance(words: &mut [u64], task: &mut Task) -> Option<Reply>
    requires table { length words.old ≡ table_words (shape_of task.old) }
    requires asks { reply_of (rest_of task.old []) ≡ None }
    requires ready { IsReady task.old }
    ensures shape { shape_of task.new ≡ shape_of task.old }
    ensures long { length words.new ≡ length words.old }
    ensures over { is_some (reply_of (rest_of task.new [])) ≡ is_some result }
    ensures made { (shape : Shape) (variant : Variant) (asked : Call) (got : List ℕ) → Fits shape variant asked got (rest_of task.old)
        → Advances shape variant asked got words.old words.new (after_access task.new result) }
{
    let next = task.next();
    let got = access(words, next);
    task.take(got)
}

/// Adds the event of a response to a log that has room for it.
fn log_response(log: &mut Vec<(u64, Event)>, stamp: u64, process: u8, reply: Reply)
    requires { vec_len log.old < vec_capacity log.old }
    ensures { log.new.items ≡ log.old.items ++ (stamp, Answer process reply) ∷ [] }
{
    match log.push((stamp, Event::Answer { process, reply })) {
        Ok(()) => (),
        Err(_) => unreachable!(),
    }
}

impl Runner {
    ghost use Rattle.std.specs.Prelude.{IsTrue, IsFalse};
    ghost use Rattle.art_core.specs.NamedTurns.{point_in};
    ghost use Rattle.machine.specs.Working.{HasNothingToDo};
    ghost use Rattle.machine.specs.Fitting.{FitsProcess, Moves};
    ghost use Rattle.art_rows.specs.Table.{IsWithinLimits};
    ghost use Rattle.art.specs.declared.doing.Doing.TheVariants.{Idle};

    /// Draws the stamp of the next call's invocation.
    fn invoke(
        &mut self,
        process: u8,
        shape: Shape,
        variant: Variant,
        words: &mut [u64],
    ) -> Result<(), Memory>
        requires table { length words.old ≡ table_words shape }
        requires idle { self.old.doing ≡ Idle }
        requires work { slice_get self.old.script.items self.old.begun ≢ None }
        requires limits { IsWithinLimits shape }
        ensures table { IsFor shape self.new.doing }
        ensures long { length words.new ≡ length words.old }
        ensures moved { (plan : Plan) (q : Process) → plan.shape ≡ shape → plan.variant ≡ variant → FitsProcess plan process self.old q
            → OnOk result (Moves plan process q words.old words.new self.new) }
        ensures kept { (plan : Plan) (q : Process) → FitsProcess plan process self.old q
            → OnErr result ((words.new ≡ words.old) × FitsProcess plan process self.new q) }
    {
        let call = match self.script.get(self.begun) {
            Some(call) => *call,
            None => unreachable!(),
        };
        let event = Event::Invoke {
            process,
            call: call.call(),
        };
        self.log.push((words[0], event))?;
        stamp(words);
        self.begun += 1;
        self.doing = Doing::Going(Task::begin(shape, variant, call));
        Ok(())
    }

    /// Draws the stamp of the response.
    fn respond(&mut self, process: u8, words: &mut [u64]) -> Result<(), Memory>
        requires table { 0 < length words.old }
        requires answered { IsAnswered self.old.doing }
        ensures table { (shape : Shape) → IsFor shape self.new.doing }
        ensures long { length words.new ≡ length words.old }
        ensures moved { (plan : Plan) (q : Process) → FitsProcess plan process self.old q
            → OnOk result (Moves plan process q words.old words.new self.new) }
        ensures kept { (plan : Plan) (q : Process) → FitsProcess plan process self.old q
            → OnErr result ((words.new ≡ words.old) × FitsProcess plan process self.new q) }
    {
        self.log.reserve(1)?;
        match mem::replace(&mut self.doing, Doing::Idle) {
            Doing::Answered(reply) => {
                log_response(&mut self.log, words[0], process, reply);
                stamp(words);
                self.finished += 1;
                Ok(())
            }
            _ => unreachable!(),
        }
    }

    /// Makes one step: the stamp of an invocation, an access, or the stamp of a response. If memory
    /// runs out, nothing has changed.
    pub fn turn(
        &mut self,
        alloc: Global,
        process: u8,
        shape: Shape,
        variant: Variant,
        words: &mut [u64],
    ) -> Result<(), Memory>
        requires table { length words.old ≡ table_words shape }
        requires root { 1 ≤ shape.rows256 }
        requires is_for { IsFor shape self.old.doing }
        requires work { self.old.doing ≡ Idle → slice_get self.old.script.items self.old.begun ≢ None }
        requires limits { IsWithinLimits shape }
        ensures table { IsFor shape self.new.doing }
        ensures long { length words.new ≡ length words.old }
        ensures moved { (plan : Plan) (q : Process) → plan.shape ≡ shape → plan.variant ≡ variant → FitsProcess plan process self.old q
            → OnOk result (Moves plan process q words.old words.new self.new) }
        ensures kept { (plan : Plan) (q : Process) → FitsProcess plan process self.old q
            → OnErr result ((words.new ≡ words.old) × FitsProcess plan process self.new q) }
    {
        match &mut self.doing {
            Doing::Idle => self.invoke(process, shape, variant, words),
            Doing::Going(task) => {
                task.ready(alloc)?;
                if let Some(reply) = advance(words, task) {
                    self.doing.answer(reply);
                }
                Ok(())
            }
            Doing::Answered(_) => self.respond(process, words),
        }
    }

    /// The point that the next step is at.
    pub fn point(&self) -> Option<Point>
        ensures { (plan : Plan) (p : ℕ) (q : Process) → FitsProcess plan p self.now q → result ≡ point_in plan q.got q.call }
    {
        match &self.doing {
            Doing::Idle => None,
            Doing::Going(task) => task.point(),
            Doing::Answered(_) => Some(Point::Answer),
        }
    }

    /// Whether there is an open call, or a call of the script to begin.
    pub fn has_work(&self) -> bool
        ensures no { IsFalse result → HasNothingToDo self.now }
        ensures yes { IsTrue result → HasNothingToDo self.now → ⊥ }
    {
        match self.doing {
            Doing::Idle => self.begun < self.script.len(),
            _ => true,
        }
    }
}
