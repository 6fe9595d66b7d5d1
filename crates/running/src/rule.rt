// The rule of the words, and what each atomic step shows. All of it is only for the proofs.
use crate::view::{Noted, Setup};
use art_rows::TreeCall;
use atomic_table::{Join, Play, Split, TableRule};

/// The rule: some schedule of the core gives the words, and what the places show.
pub struct Scheduled;

impl TableRule<TreeCall, Noted, Setup> for Scheduled {
    ghost use Rattle.running.specs.Rule.{Kept, first_view};

    ghost holds = { Kept };

    ghost first = { first_view };
}

/// A note of the call that the next stamp invokes.
pub struct Note;

impl Play<TreeCall, Noted> for Note {
    ghost use Rattle.running.specs.Rule.{Notes};

    ghost then = { Notes };
}

/// The stamp of an invocation.
pub struct Invoke;

impl Play<TreeCall, Noted> for Invoke {
    ghost use Rattle.running.specs.Rule.{InvokesAsked};

    ghost then = { InvokesAsked };
}

/// An access of an open call.
pub struct Go;

impl Play<TreeCall, Noted> for Go {
    ghost use Rattle.running.specs.Rule.{MakesNextMove};

    ghost then = { MakesNextMove };
}

/// The stamp of a response.
pub struct Respond;

impl Play<TreeCall, Noted> for Respond {
    ghost use Rattle.running.specs.Rule.{Draws};

    ghost then = { Draws };
}

/// A split gives the greatest process away, and a join takes all of another place.
pub struct Part;

impl Split<Noted> for Part {
    ghost use Rattle.running.specs.Rule.{kept_part, given_part};

    ghost left = { kept_part };

    ghost right = { given_part };
}

impl Join<Noted> for Part {
    ghost use Rattle.running.specs.Rule.{both_parts, no_part};

    ghost both = { both_parts };

    ghost spent = { no_part };
}

/// A look at the words, which shows what holds at all times.
pub struct Look;

impl Play<TreeCall, Noted> for Look {
    ghost use Rattle.running.specs.Ends.{Looks};

    ghost then = { Looks };
}
