// A share of the draws.
ghost use Rattle.std.specs.Prelude.{◌≡◌, ◌+◌, ◌^◌, ◌<◌, ◌≤◌, [], length, All};

use crate::rule::Holding;
use atomic_table::Seat;

/// A share of the draws from one [`Tickets`](crate::Tickets), for one thread at a time. If a hand
/// is dropped, its share is lost, and the tickets cannot be closed without it.
#[derive(Drop)]
pub struct Hand {
    pub(crate) seat: Seat<(), Holding>,
    pub(crate) left: u64,
    pub(crate) drawn: u64,
    ghost slots: { seat.me.1 ≡ [] },
    ghost left_is: { left ≡ seat.me.0.left },
    ghost drawn_is: { drawn ≡ length seat.me.0.drawn },
    ghost small: { drawn + left ≤ 2 ^ 61 },
    ghost floored: { All (λ x. x < seat.me.0.floor) seat.me.0.drawn },
}

impl Hand {
    ghost use Rattle.tickets.specs.Hands.{left_of};

    /// Returns how many numbers the hand may still draw.
    pub fn left(&self) -> u64
        ensures { result ≡ left_of self.now }
    {
        self.left
    }
}
