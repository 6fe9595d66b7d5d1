// A law on refusals.
ghost use Rattle.cli_judge.specs.RefusalLaws.{FaultsAreFound};

/// If the first fault of a text is that of an event or of a starting pair, the text has an item at
/// the place that it names. So the item can be shown.
pub fn faults_are_found()
    ensures { FaultsAreFound }
{}
