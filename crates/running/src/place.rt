// What a thread steps with.
ghost use Rattle.std.specs.Prelude.{◌≡◌, []};
ghost use Rattle.running.specs.Views.{NumbersRise};

use crate::view::Noted;
use art_rows::TreeCall;
use atomic_table::Seat;

/// Some processes of a [`SharedCore`](crate::shared_core::SharedCore), for one thread at a time. It takes no
/// bytes. It is used only with the core that it came from. If it is dropped, its processes are
/// lost, and the core can't be closed.
#[derive(Drop)]
pub struct SharedGroup {
    pub(crate) seat: Seat<TreeCall, Noted>,
    ghost no_slots: { seat.me.1 ≡ [] },
    ghost rising: { NumbersRise seat.me.0.view },
}
