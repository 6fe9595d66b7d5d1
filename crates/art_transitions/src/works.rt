// Taking rows, and where the work in them begins.
ghost use Rattle.std.specs.Prelude.{◌≡◌, ◌≢◌, ◌-◌, ◌≤◌, true, Some, None};
ghost use Rattle.art_rows.specs.Words.{is_small_child};
ghost use Rattle.art_rows.specs.Rows.{locks};
ghost use Rattle.art_control_states.specs.Stages.{place_in};
ghost use Rattle.art_control_states.specs.Automaton.{take_at, take_alone, taken_at, work_at, put_at, moves_at, release_at, after_with};
ghost use Rattle.art_control_states.specs.Sound.{is_sound, is_sound_work, has_keys};
ghost use Rattle.art_control_states.specs.Settings.{setting_of};

use art_control_states::{
    HeldRow, Hold, Keys, Outcome, Setting, Stage, Taking, Target, Work, count,
};
use art_rows::Kind;

/// The stage of a call that takes a row: it locks the row from the version that it kept, or in one
/// variant from any.
fn take_row(setting: &Setting, taking: Taking, stage: &mut Stage)
    requires { is_sound_work taking.work ≡ true }
    ensures stage { stage.new ≡ take_at (setting_of setting.now) taking }
    ensures sound { is_sound stage.new ≡ true }
{
    if setting.takes_unchecked() {
        *stage = Stage::Lock {
            target: Target::Taken { taking },
            first: true,
        };
    } else {
        *stage = Stage::Take { taking };
    }
}

/// The stage of a call that takes its row for some work in it.
pub(crate) fn take_alone(setting: &Setting, row: HeldRow, work: Work, stage: &mut Stage)
    requires { is_sound_work work ≡ true }
    ensures stage { stage.new ≡ take_alone (setting_of setting.now) row work }
    ensures sound { is_sound stage.new ≡ true }
{
    take_row(
        setting,
        Taking {
            row,
            held: None,
            below: None,
            work,
        },
        stage,
    );
}

/// The stage of a call that takes a row, and then the row below it, for some work in both.
pub(crate) fn take_above(
    setting: &Setting,
    above: HeldRow,
    row: HeldRow,
    work: Work,
    stage: &mut Stage,
)
    requires { is_sound_work work ≡ true }
    ensures stage { stage.new ≡ take_at (setting_of setting.now) (record { row = above; held = None; below = Some row; work = work }) }
    ensures sound { is_sound stage.new ≡ true }
{
    take_row(
        setting,
        Taking {
            row: above,
            held: None,
            below: Some(row),
            work,
        },
        stage,
    );
}

/// The stage of a call once it has taken a row, with this version.
pub(crate) fn row_taken(setting: &Setting, taking: &Taking, kept: u64, stage: &mut Stage)
    requires { is_sound_work taking.now.work ≡ true }
    ensures stage { stage.new ≡ taken_at (setting_of setting.now) taking.now.held taking.now.below taking.now.work
        (record taking.now.row { kept = kept }) }
    ensures sound { is_sound stage.new ≡ true }
{
    let row = HeldRow {
        base: taking.row.base,
        kind: taking.row.kind,
        info: taking.row.info,
        kept,
    };
    match taking.below {
        Some(below) => take_row(
            setting,
            Taking {
                row: below,
                held: Some(row),
                below: None,
                work: taking.work,
            },
            stage,
        ),

        None => begin_work(
            setting,
            Hold {
                row,
                above: taking.held,
            },
            taking.work,
            stage,
        ),
    }
}

/// The stage at which some work in held rows begins.
pub(crate) fn begin_work(setting: &Setting, hold: Hold, work: Work, stage: &mut Stage)
    requires { is_sound_work work ≡ true }
    ensures stage { stage.new ≡ work_at (setting_of setting.now) hold work }
    ensures sound { is_sound stage.new ≡ true }
{
    match work {
        Work::Write { slot, word, reply } => *stage = Stage::Write {
            hold,
            slot,
            word,
            reply,
        },

        Work::Pair { pair } => *stage = Stage::ClaimPair { hold, pair },

        Work::Put { keys } => begin_put(setting, hold, keys, stage),

        Work::Grow { slot, keys } => *stage = Stage::ClaimGrow { hold, slot, keys },
    }
}

/// The stage at which PUT begins.
fn begin_put(setting: &Setting, hold: Hold, keys: Keys, stage: &mut Stage)
    ensures stage { stage.new ≡ put_at hold.row.kind (setting_of setting.now) hold keys }
    ensures sound { is_sound stage.new ≡ true }
{
    match hold.row.kind {
        Kind::Four | Kind::Sixteen => moves(
            &hold,
            &keys,
            count(hold.row.kind, keys).saturating_sub(setting.place(hold, keys)),
            stage,
        ),

        Kind::FortyEight => *stage = Stage::PutLeaf { hold, keys },

        Kind::Full => *stage = Stage::Unlock {
            hold,
            outcome: Some(Outcome::Value { value: None }),
        },
    }
}

/// The stage of a call that has its outcome and still holds a row above, if any.
pub(crate) fn release(
    setting: &Setting,
    above: &Option<HeldRow>,
    outcome: Option<Outcome>,
    stage: &mut Stage,
)
    ensures stage { stage.new ≡ release_at (locks setting.now.variant) above.now outcome }
    ensures sound { is_sound stage.new ≡ true }
{
    match above {
        Some(row) => *stage = Stage::Unlock {
            hold: Hold {
                row: *row,
                above: None,
            },
            outcome,
        },

        None => match outcome {
            Some(outcome) => *stage = Stage::Over { outcome },

            None => *stage = setting.start(),
        },
    }
}

/// The stage of PUT with this many children still to be moved.
#[tactic(auto, using(crate::proofs::LoopLemmas::moves_none, crate::proofs::LoopLemmas::moves_some))]
pub(crate) fn moves(hold: &Hold, keys: &Keys, left: u32, stage: &mut Stage)
    requires { has_keys hold.now.row.kind ≡ true }
    ensures stage { stage.new ≡ moves_at hold.now keys.now left }
    ensures sound { is_sound stage.new ≡ true }
{
    if left == 0 {
        *stage = Stage::PutLeaf {
            hold: *hold,
            keys: *keys,
        };
    } else {
        *stage = Stage::PutLoad {
            hold: *hold,
            keys: *keys,
            left: left - 1,
        };
    }
}
