// The words, and what places do on them.
ghost use Rattle.std.specs.Prelude.{◌≡◌, ◌<◌, ◌≤◌, length, IfOk, IsTrue, Some};
ghost use Rattle.art_rows.specs.Table.{table_words};
ghost use Rattle.running.specs.Setups.{IsSetup};

use crate::place::SharedGroup;
use crate::rule::{Go, Invoke, Look, Note, Part, Respond, Scheduled};
use crate::view::{Noted, Setup};
use art_rows::{Access, TreeCall};
use atomic_table::Table;
use events::Memory;
use std::alloc::Global;

/// Words that threads share, on which processes step as those of the core do. A place is used only with the core that it came
/// from.
#[derive(Drop)]
pub struct SharedCore {
    table: Table<TreeCall, Noted, Setup, Scheduled, Global>,
    ghost words: { table.shared.table_id.words ≡ table_words table.shared.key.shape },
    ghost no_slots: { table.shared.table_id.slots ≡ 0 },
    ghost limits: { IsSetup table.shared.key },
}

impl SharedCore {
    ghost use Rattle.art_core.specs.Core.{Makes};
    ghost use Rattle.art_core.specs.Accesses.{told};
    ghost use Rattle.running.specs.Views.{is_idle, calls_left, next_of, IsAnswered, advanced, invoking, AllStamps, all_idle};
    ghost use Rattle.running.specs.Views.{without_last, last_alone, merged};
    ghost use Rattle.running.specs.Places.{IsPlaceOf, shown, setup_of};
    ghost use Rattle.running.specs.Ends.{Ended};

    /// The words of an empty tree, and a place with all processes. None of them has begun
    /// anything. No other call takes memory, and this one fails only if memory runs out.
    pub fn open(alloc: Global, setup: Setup) -> Result<(SharedCore, SharedGroup), Memory>
        requires limits { IsSetup setup }
        ensures setup { IfOk result (λ r. setup_of r.0 ≡ setup) }
        ensures own { IfOk result (λ r. IsPlaceOf r.0 r.1) }
        ensures all { IfOk result (λ r. shown r.1 ≡ all_idle setup) }
    {
        let words = setup.shape.opening(alloc)?;
        let (table, seat) = Table::of_words(alloc, words.as_slice(), &setup)?;
        Ok((SharedCore { table }, SharedGroup { seat }))
    }

    /// The place's first process invokes a call. Returns the stamp of the invocation, which is
    /// greater than all that the place shows. It is one fetch-and-add, which is one step of the
    /// core. Before it comes an exchange that leaves the words as they are and is no step.
    pub fn invoke(&self, place: &mut SharedGroup, call: &TreeCall) -> u64
        requires own { IsPlaceOf self.now place.old }
        requires idle { IsTrue (is_idle (shown place.old)) }
        requires left { 0 < calls_left (shown place.old) }
        ensures own { IsPlaceOf self.now place.new }
        ensures invoked { shown place.new ≡ invoking call.now (shown place.old) result }
        ensures later { AllStamps (λ stamp. stamp < result) (shown place.old) }
    {
        call.fits();
        // A step does not see which call it invokes, so the call is noted in the view first.
        self.table
            .shared
            .compare_exchange_with::<Note>(&mut place.seat, 0, 0, 0, call);
        self.table.shared.fetch_add::<Invoke>(&mut place.seat, 0, 1)
    }

    /// The open call of the place's first process makes its next access. Returns what the call
    /// gets: the word as it was, and 0 for a store. It is that one atomic step, which is one step
    /// of the core.
    pub fn access(&self, place: &mut SharedGroup, access: Access) -> u64
        requires own { IsPlaceOf self.now place.old }
        requires next { next_of (shown place.old) ≡ Some (Makes access) }
        ensures own { IsPlaceOf self.now place.new }
        ensures made { shown place.new ≡ advanced (shown place.old) result }
        ensures told { told access result ≡ result }
    {
        let words = &self.table.shared;
        let seat = &mut place.seat;
        match access {
            Access::Load { word } => words.load::<Go>(seat, word),
            Access::Store { word, value } => {
                words.store::<Go>(seat, word, value);
                0
            }
            Access::Exchange { word, from, to } => words.compare_exchange::<Go>(
                seat, word, from, to,
            ),
            Access::Add { word } => words.fetch_add::<Go>(seat, word, 1),
        }
    }

    /// The open call of the place's first process is answered. Returns the stamp of the response,
    /// which is greater than every stamp that the place shows. It is one fetch-and-add, which is one
    /// step of the core.
    pub fn answer(&self, place: &mut SharedGroup) -> u64
        requires own { IsPlaceOf self.now place.old }
        requires next { IsAnswered (shown place.old) }
        ensures own { IsPlaceOf self.now place.new }
        ensures made { shown place.new ≡ advanced (shown place.old) result }
        ensures later { AllStamps (λ stamp. stamp < result) (shown place.old) }
    {
        self.table
            .shared
            .fetch_add::<Respond>(&mut place.seat, 0, 1)
    }

    /// Gives the place's greatest process to a place of its own. It is one load, and no step of the core.
    pub fn split(&self, place: &mut SharedGroup) -> SharedGroup
        requires own { IsPlaceOf self.now place.old }
        ensures own { IsPlaceOf self.now place.new × IsPlaceOf self.now result }
        ensures kept { shown place.new ≡ without_last (shown place.old) }
        ensures given { shown result ≡ last_alone (shown place.old) }
    {
        let seat = self.table.shared.split_seat::<Part>(&mut place.seat);
        SharedGroup { seat }
    }

    /// Takes in the processes of another place. It is one load, and no step of the core.
    pub fn join(&self, place: &mut SharedGroup, other: SharedGroup)
        requires own { IsPlaceOf self.now place.old }
        requires other { IsPlaceOf self.now other }
        ensures own { IsPlaceOf self.now place.new }
        ensures both { shown place.new ≡ merged (shown place.old) (shown other) }
    {
        let SharedGroup { seat } = other;
        self.table.shared.join_seat::<Part>(&mut place.seat, seat);
    }

    /// A look at the words. A place has no more processes than there are. If it has all, some
    /// schedule gives the state that they have now. It is one load, and no step of the core.
    pub fn look(&self, place: &mut SharedGroup)
        requires own { IsPlaceOf self.now place.old }
        ensures own { IsPlaceOf self.now place.new }
        ensures same { shown place.new ≡ shown place.old }
        ensures few { length (shown place.old).processes ≤ (setup_of self.now).processes }
        ensures all { length (shown place.old).processes ≡ (setup_of self.now).processes → Ended (setup_of self.now) (shown place.old) }
    {
        self.table.shared.load::<Look>(&mut place.seat, 0);
    }

    /// Ends the core, for a place that has all processes: as many as there are. Some schedule gives
    /// the state that they have then.
    pub fn close(self, place: SharedGroup)
        requires own { IsPlaceOf self place }
        requires all { length (shown place).processes ≡ (setup_of self).processes }
        ensures { Ended (setup_of self) (shown place) }
    {
        let SharedCore { table } = self;
        let SharedGroup { seat } = place;
        table.close_with(seat).free();
    }
}
