// The shape of all trees of these tests.
ghost use Rattle.art_rows.specs.Table.{IsWithinLimits};

use art::Shape;

/// Eight rows of each kind below the root.
pub(crate) fn eights() -> Shape
    ensures { IsWithinLimits result }
{
    Shape {
        rows4: 8,
        rows16: 8,
        rows48: 8,
        rows256: 1,
    }
}
