// Laws of scans of the optimistic tree: each function only carries its clause.
ghost use Rattle.art_schedules.specs.scan_points.ScanPoints.{AnsweredScansHavePoints};

use crate::laws::calls::{fronts_have_moments, moments_end_runs, runs_have_calls};
use crate::laws::walks::scans_are_the_maps;

/// A scan of the optimistic tree whose reply is known has a moment within it at which the reply is that of the map that calm
/// means then.
pub fn answered_scans_have_points()
    ensures { AnsweredScansHavePoints }
{
    fronts_have_moments();
    moments_end_runs();
    runs_have_calls();
    scans_are_the_maps();
}
