// Whether there is room for what a drive records.
ghost use Rattle.std.specs.Prelude.{◌≡◌, ◌↔◌, ◌≤◌, IsTrue, map, All, vec_len};
ghost use Rattle.running.specs.Drives.{IsDrivable, most_calls};

use art_rows::TreeCall;
use events::MAX_CALLS;
use plans::Plan;

/// Returns whether a plan can be driven. All processes may begin equally many calls, so the number
/// of scripts times the length of the longest one is at most `MAX_CALLS`.
pub fn is_drivable(plan: &Plan) -> bool
    ensures { IsTrue result ↔ IsDrivable plan.now }
{
    let scripts = plan.scripts();
    scripts.len() * most_calls(scripts) <= MAX_CALLS
}

/// Returns how many calls the longest script has.
pub fn most_calls(scripts: &[Vec<TreeCall>]) -> usize
    ensures longest { result ≡ most_calls (map (λ script. script.items) scripts.now) }
    ensures bound { All (λ script. vec_len script ≤ result) scripts.now }
{
    let mut most = 0;
    for script in scripts {
        if script.len() > most {
            most = script.len();
        }
    }
    most
}
