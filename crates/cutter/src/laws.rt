// Laws of segments: each function only carries its clause.
ghost use Rattle.cutter.specs.Laws.{HasOneListOfSegments};

/// A history has only one list of segments. So `cut` cannot return any other one.
pub fn one_list_of_segments()
    ensures { HasOneListOfSegments }
{}
