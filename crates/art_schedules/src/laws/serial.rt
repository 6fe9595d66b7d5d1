// Laws of serial schedules: each function only carries its clause.
ghost use Rattle.art_schedules.specs.serial.Laws.{SerialSchedulesRunAlone};

/// A serial schedule is a list of calls that run alone, one after another.
pub fn serial_schedules_run_alone()
    ensures { SerialSchedulesRunAlone }
{}
