// Laws of the work in held rows: each function only carries its clause.
ghost use Rattle.art_schedules.specs.work.Laws.{WorkIsDone};

/// At its first release, the work of a call that ran alone has left what its kind says.
pub fn work_is_done()
    ensures { WorkIsDone }
{}
