// Laws of moments: each function only carries its clause.
ghost use Rattle.art_core.specs.Claims.{ScanHasMoment};
ghost use Rattle.art_schedules.specs.moments.LastRows.{GetsHaveOneMoment};
ghost use Rattle.art_schedules.specs.moments.Reads.{RunsHaveMomentsOfGets, RunsHaveMomentsOfScans};

/// An answered scan has a moment within the call at which all rows that its answering attempt read
/// are unlocked and have the words that were read. Each row does not change from the end of the
/// wait for it to its check. The scan's reply is that of a scan that runs alone on the words of
/// that moment.
pub fn scans_have_one_moment()
    ensures { ScanHasMoment }
{}

/// An answered get has a moment within the call at which the last row that it read does not change,
/// from the end of the wait for the row to its last check. At that moment the row has the words
/// that were read of it. The get's reply is what these words say of its key.
pub fn gets_have_one_moment()
    ensures { GetsHaveOneMoment }
{}

/// Each scan that was answered at any moment of a schedule has such a moment, whatever came after
/// it.
pub fn answered_scans_have_moments()
    ensures { RunsHaveMomentsOfScans }
{}

/// Each get that was answered at any moment of a schedule has such a moment, whatever came after
/// it.
pub fn answered_gets_have_moments()
    ensures { RunsHaveMomentsOfGets }
{}
