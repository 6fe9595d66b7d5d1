// Laws of verdicts on what full trees record. Each function only carries its clause.
ghost use Rattle.cli_plans.specs.EngineLaws.{DriveRunsAreNeverRefuted, DrivesAreNeverRefuted, ReplayRunsAreNeverRefuted, ReplaysAreNeverRefuted};
ghost use Rattle.cli_plans.specs.VerdictLaws.{LinearizableTextsAreNeverRefuted, NeverRefuted};

use art_schedules::{coupled_is_linearizable, optimistic_is_linearizable};
use history_text::{one_history, spells_between_white_space, white_space_tells_nothing};
use plan_text::one_replay;

/// The judge answers Yes or Undecided, and never No, on the history of a full tree. That holds for
/// every schedule and all starting pairs, at any budget and with any number of workers.
pub fn never_refuted()
    ensures { NeverRefuted }
{
    coupled_is_linearizable();
    optimistic_is_linearizable();
}

/// The judge never answers No to a text that spells a linearizable history, such as those that a
/// drive of a full tree writes.
pub fn linearizable_texts_are_never_refuted()
    ensures { LinearizableTextsAreNeverRefuted }
{
    one_history();
}

/// `judge` never answers No to the bytes that `replay` writes of a full tree, with their line feed.
/// That holds at any budget, with any number of workers, and with any white space around them.
pub fn replays_are_never_refuted()
    ensures outcomes { ReplaysAreNeverRefuted }
    ensures runs { ReplayRunsAreNeverRefuted }
{
    linearizable_texts_are_never_refuted();
    one_replay();
    spells_between_white_space();
    white_space_tells_nothing();
}

/// `judge` never answers No to the bytes that `drive` writes of a full tree.
pub fn drives_are_never_refuted()
    ensures outcomes { DrivesAreNeverRefuted }
    ensures runs { DriveRunsAreNeverRefuted }
{
    linearizable_texts_are_never_refuted();
    spells_between_white_space();
    white_space_tells_nothing();
}
