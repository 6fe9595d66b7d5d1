// The shared counter, and the operations on its hands.
ghost use Rattle.std.specs.Prelude.{◌≡◌, ◌+◌, ◌-◌, ◌^◌, ◌<◌, ◌≤◌, ◌↔◌, [], ◌∷◌, ◌++◌, max, All, IfOk, IfErr, IsOk};

use crate::hand::Hand;
use crate::rule::{Counting, Draw, Holding, LookAtBound, SetAside, Share};
use atomic_table::Table;
use std::alloc::{AllocError, Global};

/// A counter from which hands draw numbers. A hand is used only with the tickets that it came from.
#[derive(Drop)]
pub struct Tickets {
    table: Table<(), Holding, u64, Counting, Global>,
    quota: u64,
    ghost one_word: { table.shared.table_id.words ≡ 1 },
    ghost no_slots: { table.shared.table_id.slots ≡ 0 },
    ghost quota_is: { quota ≡ table.shared.key },
}

impl Tickets {
    ghost use Rattle.tickets.specs.Numbers.{EachOnce};
    ghost use Rattle.tickets.specs.Hands.{counter, quota_of, counter_of, drawn_by, left_of, floor_of, share_of, Holds};

    /// Opens tickets from which `quota` numbers can be drawn, with a hand that may draw them all.
    /// This is the only call that takes memory, and it fails only if memory runs out.
    pub fn open(alloc: Global, quota: u64) -> Result<(Tickets, Hand), AllocError>
        requires { quota ≤ 2 ^ 61 }
        ensures quota { IfOk result (λ t. quota_of t.0 ≡ quota) }
        ensures own { IfOk result (λ t. counter_of t.1 ≡ counter t.0) }
        ensures hand { IfOk result (λ t. Holds t.1 [] quota 0) }
    {
        let (table, seat) = Table::of_words(alloc, &[0], &quota)?;
        let hand = Hand {
            seat,
            left: quota,
            drawn: 0,
        };
        Ok((Tickets { table, quota }, hand))
    }

    /// Draws a number that no other draw gives. It is greater than all numbers that the hand drew
    /// or got by `join`. It is also greater than all that a hand had drawn when this one was split
    /// from it. It is one fetch-and-add, and waits for nobody.
    pub fn draw(&self, hand: &mut Hand) -> u64
        requires own { counter_of hand.old ≡ counter self.now }
        requires some { 0 < left_of hand.old }
        ensures own { counter_of hand.new ≡ counter_of hand.old }
        ensures drawn { drawn_by hand.new ≡ drawn_by hand.old ++ result ∷ [] }
        ensures left { left_of hand.new + 1 ≡ left_of hand.old }
        ensures greater { All (λ x. x < result) (drawn_by hand.old) }
        ensures past { floor_of hand.old ≤ result }
        ensures floor { floor_of hand.new ≡ result + 1 }
    {
        let number = self.table.shared.fetch_add::<Draw>(&mut hand.seat, 0, 1);
        hand.left -= 1;
        hand.drawn += 1;
        number
    }

    /// Gives `part` of the hand's draws to a new hand. The new hand draws no number below those
    /// that this one drew so far. It is an exchange and a load, which leave the counter as it is.
    pub fn split(&self, hand: &mut Hand, part: u64) -> Hand
        requires own { counter_of hand.old ≡ counter self.now }
        requires enough { part ≤ left_of hand.old }
        ensures own { (counter_of hand.new ≡ counter_of hand.old) × (counter_of result ≡ counter_of hand.old) }
        ensures kept { Holds hand.new (drawn_by hand.old) (left_of hand.old - part) (floor_of hand.old) }
        ensures given { Holds result [] part (floor_of hand.old) }
        ensures below { All (λ x. x < floor_of hand.old) (drawn_by hand.old) }
    {
        // A holding is split as its own note says, so the part is noted in it first. The exchange
        // stores the number that it found.
        self.table
            .shared
            .compare_exchange::<SetAside>(&mut hand.seat, 0, part, part);
        let seat = self.table.shared.split_seat::<Share>(&mut hand.seat);
        hand.left -= part;
        Hand {
            seat,
            left: part,
            drawn: 0,
        }
    }

    /// Gives the hand what the other hand drew and may still draw. It is two loads.
    pub fn join(&self, hand: &mut Hand, other: Hand)
        requires own { counter_of hand.old ≡ counter self.now }
        requires other { counter_of other ≡ counter self.now }
        ensures own { counter_of hand.new ≡ counter_of hand.old }
        ensures both { Holds hand.new (drawn_by hand.old ++ drawn_by other) (left_of hand.old + left_of other)
            (max (floor_of hand.old) (floor_of other)) }
    {
        let Hand { seat, left, drawn } = other;
        self.table.shared.join_seat::<Share>(&mut hand.seat, seat);
        // This load shows that what both hands have together is within the bound, so that the sums
        // fit.
        self.table.shared.load::<LookAtBound>(&mut hand.seat, 0);
        hand.left += left;
        hand.drawn += drawn;
    }

    /// Returns how many numbers were drawn, if the hand has the whole quota, drawn or left.
    /// Otherwise a part of the quota is with another hand, and both arguments are returned.
    pub fn close(self, hand: Hand) -> Result<u64, (Tickets, Hand)>
        requires { counter_of hand ≡ counter self }
        ensures whole { IsOk result ↔ (share_of hand ≡ quota_of self) }
        ensures numbers { IfOk result (λ n. EachOnce n (drawn_by hand)) }
        ensures refused { IfErr result (λ back. back ≡ (self, hand)) }
    {
        if hand.drawn + hand.left != self.quota {
            return Err((self, hand));
        }
        let Tickets { table, quota: _ } = self;
        let Hand {
            seat,
            left: _,
            drawn,
        } = hand;
        table.close_with(seat).free();
        Ok(drawn)
    }
}
