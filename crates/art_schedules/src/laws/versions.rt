// Laws of versions: each function only carries its clause.
ghost use Rattle.art_schedules.specs.versions.Laws.{HoldersWrite, RowsAreSound};

/// In every state of a full tree, coupled or optimistic, whatever calls run: each row that a
/// process holds is locked from the version that the process has kept. A process holds each locked
/// row, and no two processes hold one row. Versions that calls have kept were not locked, and in
/// the optimistic tree not obsolete. No word names a row that is still being filled.
pub fn rows_are_sound()
    ensures { RowsAreSound }
{}

/// In both full trees, a process writes in each step only three kinds of words: those of rows that
/// it holds, a version by which it takes its row, and those of the fresh row that it fills. No
/// other word of any row changes.
pub fn only_holders_write()
    ensures { HoldersWrite }
{}
