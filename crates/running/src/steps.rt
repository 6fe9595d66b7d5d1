// The steps of one process.
ghost use Rattle.std.specs.Prelude.{◌≡◌, ◌<◌, ◌∷◌, ◌++◌, [], ℕ, Some, IsTrue, IfOk, OnOk, OnErr, MatchOption};
ghost use Rattle.std.specs.Prelude.{vec_len, vec_capacity};
ghost use Rattle.events.specs.declared.event.Reply.{Reply};
ghost use Rattle.art.specs.Doings.{IsAnswered};
ghost use Rattle.art.specs.declared.doing.Doing.TheVariants.{Answered};
ghost use Rattle.art_rows.specs.Table.{IsWithinLimits};
ghost use Rattle.running.specs.Places.{shown, IsPlaceOf};
ghost use Rattle.running.specs.Views.{is_idle, calls_left, advanced};
ghost use Rattle.running.specs.Fitting.{IsFirst, IsBeside};
ghost use Rattle.running.specs.Steps.{is_open, HasReplied, HasInvoked};
ghost use Rattle.running.specs.Progressed.{HasProgressed, HasStopped};

use crate::place::SharedGroup;
use crate::progress::Progress;
use crate::runner::Runner;
use crate::shared_core::SharedCore;
use crate::view::Setup;
use art::{Doing, Task, TreeCall};
use events::{Event, Memory, Reply};
use std::alloc::Global;
use std::mem;

/// Adds an event to a log that has room for it.
fn log_event(log: &mut Vec<(u64, Event)>, stamp: u64, event: Event)
    requires { vec_len log.old < vec_capacity log.old }
    ensures { log.new.items ≡ log.old.items ++ (stamp, event) ∷ [] }
{
    match log.push((stamp, event)) {
        Ok(()) => (),
        Err(_) => unreachable!(),
    }
}

impl Runner {
    /// Begins a call.
    pub fn begin(
        &mut self,
        core: &SharedCore,
        place: &mut SharedGroup,
        number: u8,
        setup: Setup,
        call: TreeCall,
    ) -> Result<(), Memory>
        requires own { IsPlaceOf core.now place.old }
        requires setup { (shown place.old).setup ≡ setup }
        requires limits { IsWithinLimits setup.shape }
        requires first { IsFirst (shown place.old) number self.old }
        requires idle { IsTrue (is_idle (shown place.old)) }
        requires left { 0 < calls_left (shown place.old) }
        ensures own { IsPlaceOf core.now place.new }
        ensures first { IsFirst (shown place.new) number self.new }
        ensures beside { IsBeside (shown place.old) (shown place.new) }
        ensures invoked { OnOk result (HasInvoked call (shown place.old) (shown place.new)) }
        ensures unchanged { OnErr result (shown place.new ≡ shown place.old) }
    {
        self.log.reserve(1)?;
        let stamp = core.invoke(place, &call);
        let event = Event::Invoke {
            process: number,
            call: call.call(),
        };
        log_event(&mut self.log, stamp, event);
        self.left -= 1;
        self.doing = Doing::Going(Task::begin(setup.shape, setup.variant, call));
        Ok(())
    }

    /// Makes at most this many steps of the open call.
    pub fn advance(
        &mut self,
        alloc: Global,
        core: &SharedCore,
        place: &mut SharedGroup,
        number: u8,
        turns: u32,
    ) -> Result<Progress, Memory>
        requires own { IsPlaceOf core.now place.old }
        requires first { IsFirst (shown place.old) number self.old }
        requires open { IsTrue (is_open (shown place.old)) }
        ensures own { IsPlaceOf core.now place.new }
        ensures first { IsFirst (shown place.new) number self.new }
        ensures beside { IsBeside (shown place.old) (shown place.new) }
        ensures progressed { IfOk result (λ progress. HasProgressed progress turns (shown place.old) (shown place.new)) }
        ensures stopped { OnErr result (HasStopped turns (shown place.old) (shown place.new)) }
    {
        for _made in 0..turns {
            let told = match self.step(alloc, core, place, number) {
                Err(memory) => return Err(memory),
                Ok(told) => told,
            };
            match told {
                Some(reply) => return Ok(Progress::Done(reply)),
                None => {}
            }
        }
        Ok(Progress::Going)
    }

    /// Makes one step of the open call: an access, or the stamp of its response. If memory runs
    /// out, nothing has changed.
    #[inline(always)]
    fn step(
        &mut self,
        alloc: Global,
        core: &SharedCore,
        place: &mut SharedGroup,
        number: u8,
    ) -> Result<Option<Reply>, Memory>
        requires own { IsPlaceOf core.now place.old }
        requires first { IsFirst (shown place.old) number self.old }
        requires open { IsTrue (is_open (shown place.old)) }
        ensures own { IsPlaceOf core.now place.new }
        ensures first { IsFirst (shown place.new) number self.new }
        ensures beside { IsBeside (shown place.old) (shown place.new) }
        ensures made { OnOk result ((found : ℕ) × (shown place.new ≡ advanced (shown place.old) found)) }
        ensures told { IfOk result (λ told. MatchOption told (IsTrue (is_open (shown place.new)))
            (λ reply. HasReplied reply (shown place.new))) }
        ensures kept { OnErr result (shown place.new ≡ shown place.old) }
    {
        match &mut self.doing {
            Doing::Idle => unreachable!(),
            Doing::Going(task) => {
                task.ready(alloc)?;
                let got = core.access(place, task.next());
                match task.take(got) {
                    None => Ok(None),
                    Some(reply) => {
                        self.doing.answer(reply);
                        Ok(None)
                    }
                }
            }
            Doing::Answered(reply) => {
                let told = reply.copy(alloc)?;
                self.respond(core, place, number)?;
                Ok(Some(told))
            }
        }
    }

    /// Answers the call: draws the stamp of its response. Memory for the event is allocated before.
    fn respond(
        &mut self,
        core: &SharedCore,
        place: &mut SharedGroup,
        number: u8,
    ) -> Result<(), Memory>
        requires own { IsPlaceOf core.now place.old }
        requires first { IsFirst (shown place.old) number self.old }
        requires answered { IsAnswered self.old.doing }
        ensures own { IsPlaceOf core.now place.new }
        ensures first { IsFirst (shown place.new) number self.new }
        ensures beside { IsBeside (shown place.old) (shown place.new) }
        ensures made { OnOk result ((found : ℕ) × (shown place.new ≡ advanced (shown place.old) found)) }
        ensures told { (reply : Reply) → self.old.doing ≡ Answered reply → OnOk result (HasReplied reply (shown place.new)) }
        ensures kept { OnErr result (shown place.new ≡ shown place.old) }
    {
        self.log.reserve(1)?;
        match mem::replace(&mut self.doing, Doing::Idle) {
            Doing::Answered(reply) => {
                let stamp = core.answer(place);
                let event = Event::Answer {
                    process: number,
                    reply,
                };
                log_event(&mut self.log, stamp, event);
                Ok(())
            }
            _ => unreachable!(),
        }
    }
}
