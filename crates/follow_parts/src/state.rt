// The state of the monitor.
ghost use Rattle.std.specs.Prelude.{◌≡◌, ◌+◌, ◌<◌, ◌≤◌, ◌^◌, ◌++◌, ◌∷◌, [], List, All, IfOk};
ghost use Rattle.events.specs.declared.operation.Operation.{Operation as Done};
ghost use Rattle.events.specs.Keys.{low_key, high_key};
ghost use Rattle.map_object.specs.MapObject.{Contents, IsRising};
ghost use Rattle.follow_laws.specs.Forms.{HasForm};
ghost use Rattle.follow_laws.specs.KeptSteps.{PartGoesOn};
ghost use Rattle.follow_parts.specs.Shapes.{IsShaped};
ghost use Rattle.follow_parts.specs.Views.{kept_parts};
ghost use Rattle.follow_parts.specs.Keeping.{begun, HasEndedBy, is_reported, IsAnswered, IsCounted, IsStateOf, reported, response_at};

use crate::answering::answer_change;
use crate::beginning::{begin_change, begin_read};
use crate::reading::answer_read;
use crate::settling::add_pairs;
use crate::table::PartTable;
use events::{Call, Memory, Operation, Reply, Response};
use follow_cuts::Past;
use follow_pasts::{OpenReads, Range};
use packed_map::PackedMap;
use std::alloc::Global;
use std::marker::Model;

/// The state after some events: the keys at rest that have a value, the parts of the other keys,
/// the reads that are pending, and how many events there were.
pub struct Parts {
    pub(crate) rest: PackedMap<u64>,
    pub(crate) parts: PartTable,
    pub(crate) reads: OpenReads,
    pub(crate) now: usize,
}

impl Drop for Parts {
    fn drop(self) {
        let Parts {
            rest: _rest,
            parts: _parts,
            reads: _reads,
            now: _,
        } = self;
    }
}

impl Model for Parts {
    ghost use Rattle.follow_parts.specs.Views.{PartsView};
    ghost use Rattle.follow_parts.specs.Shapes.{IsShaped};

    ghost Value = { PartsView };

    ghost view = { λ s. record {
      rest = s.rest;
      parts = s.parts;
      reads = s.reads;
      now = s.now;
    } };

    ghost invariant = { λ s. IsShaped (record {
      rest = s.rest;
      parts = s.parts;
      reads = s.reads;
      now = s.now;
    }) };
}

/// A part that does not go on: its keys, and its pasts with the answer.
pub struct EndedPart {
    pub ranges: Vec<Range>,
    pub pasts: Vec<Past>,
}

impl Drop for EndedPart {
    fn drop(self) {
        let EndedPart {
            ranges: _ranges,
            pasts: _pasts,
        } = self;
    }
}

/// What an answer makes of the state.
#[derive(Drop)]
pub enum Answered {
    /// The events so far have an order.
    Going(Parts),
    /// They have none: no past of this part has one.
    Lost(EndedPart),
    /// It is not known: the search of a past of this part reached more configurations than the
    /// budget, and those before it have no order.
    Spent(EndedPart),
    /// No such call is pending.
    Unknown,
}

impl Parts {
    /// Its fields.
    pub(crate) fn apart(self) -> (PackedMap<u64>, PartTable, OpenReads, usize)
        ensures rest { result.0 ≡ self.rest }
        ensures parts { result.1 ≡ self.parts }
        ensures reads { result.2 ≡ self.reads }
        ensures now { result.3 ≡ self.now }
        ensures shaped { IsShaped self }
    {
        let Parts {
            rest,
            parts,
            reads,
            now,
        } = self;
        (rest, parts, reads, now)
    }

    /// Before any event, at pairs by rising key, which are copied.
    pub fn new(alloc: Global, start: &[(u64, u64)]) -> Result<Parts, Memory>
        requires { IsRising start.now }
        ensures state { IfOk result (IsStateOf start.now []) }
        ensures counted { IfOk result (λ s. s.now ≡ 0) }
    {
        let empty = PackedMap::new(alloc)?;
        let rest = add_pairs(empty, start)?;
        let parts = PartTable::new(alloc)?;
        let reads = OpenReads::new(alloc)?;
        Ok(Parts {
            rest,
            parts,
            reads,
            now: 0,
        })
    }

    /// How many events there were.
    pub fn now(&self) -> usize
        ensures { result ≡ self.entry.now.now }
    {
        self.now
    }

    /// Each part goes on, which means that the calls so far have an order (`kept_parts_decide`).
    pub fn goes_on(&self)
        ensures { All PartGoesOn (kept_parts self.entry.now) }
    {
        let _parts = &self.parts;
    }

    /// A call begins. Its place is the number of the events before it.
    pub fn begin(self, alloc: Global, call: Call) -> Result<Parts, Memory>
        requires room { self.now + 1 < 2 ^ 64 }
        requires shaped { low_key call ≤ high_key call }
        ensures state { (start : Contents) (calls : List Done) → IsStateOf start calls self
            → IfOk result (IsStateOf start (calls ++ begun call self.now ∷ [])) }
        ensures counted { IfOk result (IsCounted self) }
    {
        if call.may_change() {
            return begin_change(alloc, self, call);
        }
        begin_read(self, call)
    }

    /// Takes the answer of a pending call, which began at this place. A part that does not go on
    /// has the pasts that it had before, with the answer.
    pub fn answer(
        self,
        alloc: Global,
        inv: usize,
        call: Call,
        reply: Reply,
        budget: u32,
    ) -> Result<Answered, Memory>
        requires room { self.now + 1 < 2 ^ 64 }
        requires shaped { low_key call ≤ high_key call }
        requires form { HasForm call (reported reply self.now) }
        ensures answered { (start : Contents) (front back : List Done)
            → IsStateOf start (front ++ begun call inv ∷ back) self
            → IfOk result (IsAnswered start budget self
            (front ++ is_reported (begun call inv) reply self.now ∷ back)) }
        ensures ended { (start : Contents) (front back : List Done)
            → IsStateOf start (front ++ begun call inv ∷ back) self
            → IfOk result (HasEndedBy start self.now (front ++ begun call inv ∷ back)
            (begun call inv) (response_at reply self.now)) }
    {
        let operation = Operation {
            call,
            inv,
            response: Some(Response {
                res: self.now,
                reply,
            }),
        };
        if call.may_change() {
            return answer_change(alloc, self, operation, budget);
        }
        answer_read(alloc, self, operation, budget)
    }
}
