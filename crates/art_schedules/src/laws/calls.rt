// Laws of the calls of a run, each the contract of a function that does nothing.
ghost use Rattle.art_schedules.specs.calls.Laws.{RunsHaveCalls, EffectsGiveOrders, MomentsEndRuns, FrontsHaveMoments};

/// The calls of a run's history are those that its processes begin. Each is begun at one step, as
/// the next call of a script, and answered at a later step or not yet.
pub fn runs_have_calls()
    ensures { RunsHaveCalls }
{}

/// A run is linearizable if each call takes effect within itself. It does so at the one step of its
/// process that changes the pairs, or at a moment at which they are as it found them.
pub fn effects_give_orders()
    ensures { EffectsGiveOrders }
{}

/// Each moment of a run is the end of a run.
pub fn moments_end_runs()
    ensures { MomentsEndRuns }
{}

/// The moments of the front of a schedule are moments of the whole.
pub fn fronts_have_moments()
    ensures { FrontsHaveMoments }
{}
