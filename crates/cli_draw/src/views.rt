// Two views, which mean the same for every history.
ghost use Rattle.std.specs.Prelude.{◌≡◌, ℕ, ◌*◌, ◌≤◌, true};
ghost use Rattle.events.specs.Limits.{call_limit};
ghost use Rattle.cli_draw.specs.Choices.{asks_for_nothing};
ghost use Rattle.cli_draw.specs.Drawings.{unasked, whole};

use draw_picture::View;

/// Returns the view that shows a whole picture.
pub fn whole_view() -> View
    ensures { result ≡ whole }
{
    View {
        around: 0,
        calls: 0,
    }
}

/// Returns the view that asks for nothing: for an event, and for a number of calls, that no history
/// has.
pub fn unasked_view() -> View
    ensures view { result ≡ unasked }
    ensures asked { (events : ℕ) → events ≤ 2 * call_limit → asks_for_nothing events result ≡ true }
{
    View {
        around: 8192,
        calls: 4097,
    }
}
