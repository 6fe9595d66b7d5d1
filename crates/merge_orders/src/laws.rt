// Laws of points and of the merged order: each function only carries its clause.
ghost use Rattle.merge_orders.specs.Laws.{SegmentsShareNoPoint, HasOneMergedOrder};

/// No two segments of a history share a point. So calls with equal points in a merged order are of
/// one segment.
pub fn segments_share_no_point()
    ensures { SegmentsShareNoPoint }
{}

/// Orders of a history's segments have only one merged order. So `merge` cannot return any other
/// one.
pub fn one_merged_order()
    ensures { HasOneMergedOrder }
{}
