// The handle of a stream that is followed.
ghost use Rattle.std.specs.Prelude.{◌≡◌, Option, None, Some, option_map};
ghost use Rattle.cli_follow.specs.declared.line_follower.LineFollower.{LineFollower};

use crate::loose::Loose;
use cli_follow::LineFollower;
use std::alloc::Global;
use std::marker::Model;
use std::mem::replace;
use std::ptr::null_mut;

/// A handle. If it is open, it owns a follower by a pointer to it. Contracts see the follower.
#[repr(C)]
pub struct PotzendaiFollower {
    at: *mut u8,
    is_open: bool,
    pub ghost follows: { Option LineFollower },
}

impl Model for PotzendaiFollower {
    ghost use Rattle.potzendai.specs.Handle.{held};

    ghost also_owns = { λ h. held h.is_open h.at h.follows };
}

impl PotzendaiFollower {
    /// Returns a handle without a follower.
    fn without_follower() -> PotzendaiFollower
        ensures { result.follows ≡ None }
    {
        PotzendaiFollower {
            at: null_mut(),
            is_open: false,
        }
    }

    /// Returns a handle with this follower.
    fn with_follower(follower: Loose<LineFollower, Global>) -> PotzendaiFollower
        ensures { result.follows ≡ Some follower.value }
    {
        let Loose { at, alloc: _ } = follower;
        PotzendaiFollower {
            at: at as *mut u8,
            is_open: true,
        }
    }

    /// Returns the follower, if there is one.
    fn into_loose(self, alloc: Global) -> Option<Loose<LineFollower, Global>>
        ensures { option_map (λ l. l.value) result ≡ self.follows }
    {
        let PotzendaiFollower { at, is_open } = self;
        if is_open {
            Some(Loose {
                at: at as *mut LineFollower,
                alloc,
            })
        } else {
            None
        }
    }
}

/// Takes the follower out of the handle, if there is one.
pub(crate) fn take(alloc: Global, handle: &mut PotzendaiFollower) -> Option<Box<LineFollower>>
    ensures taken { option_map (λ f. f.value) result ≡ handle.old.follows }
    ensures closed { handle.new.follows ≡ None }
{
    let held = replace(handle, PotzendaiFollower::without_follower());
    match held.into_loose(alloc) {
        Some(loose) => Some(loose.into_box()),
        None => None,
    }
}

/// Puts a follower into the handle, and drops the one that was there.
pub(crate) fn put(alloc: Global, handle: &mut PotzendaiFollower, follower: Box<LineFollower>)
    ensures { handle.new.follows ≡ Some follower.value }
{
    let opened = PotzendaiFollower::with_follower(Loose::of(follower));
    let held = replace(handle, opened);
    if let Some(loose) = held.into_loose(alloc) {
        drop(loose.into_box());
    }
}
