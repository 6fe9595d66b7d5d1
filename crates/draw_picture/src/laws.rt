// Laws of viewports, and of pictures of a few calls.
ghost use Rattle.draw_picture.specs.Few.{FewHaveFewColumns};
ghost use Rattle.draw_picture.specs.Viewports.{MarksStayInside, RanksRise, ViewportHoldsMiddle};

/// A viewport does not pass the last column, and its middle is in it.
pub fn viewports_hold_their_middle()
    ensures { ViewportHoldsMiddle }
{}

/// Columns that are counted again keep their order. Each has a place of its own, and none is above
/// their number.
pub fn ranks_rise()
    ensures { RanksRise }
{}

/// A mark that is inside a bar, and in a viewport, is inside the bar's part there.
pub fn marks_stay_inside()
    ensures { MarksStayInside }
{}

/// A picture of a few calls has at most three columns for each of them.
pub fn few_have_few_columns()
    ensures { FewHaveFewColumns }
{}
