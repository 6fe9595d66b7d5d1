// A call on a key as it goes on.
ghost use Rattle.std.specs.Prelude.{◌≡◌, true};
ghost use Rattle.art_control_states.specs.Stages.{reply_for};
ghost use Rattle.art_control_states.specs.Sound.{is_sound};

use crate::asked::access_at;
use crate::points::point_at;
use art_control_states::{Outcome, Setting, Stage};
use art_rows::{Access, Point};
use art_transitions::make_stage;
use events::Reply;

/// A get, an insert or a remove under way.
#[derive(Drop)]
pub struct KeyCall {
    pub stage: Stage,
    pub ghost sound: { is_sound stage ≡ true },
}

impl KeyCall {
    ghost use Rattle.std.specs.Prelude.{Some, None};
    ghost use Rattle.art_rows.specs.Rows.{locks};
    ghost use Rattle.art_rows.specs.Steps.{access_of, reply_of};
    ghost use Rattle.art_rows.specs.Act.{point_of};
    ghost use Rattle.art_control_states.specs.Automaton.{start_at, turn_at, stage_after as stage_thereafter};
    ghost use Rattle.art_control_states.specs.Settings.{setting_of};

    /// A call that has made no access yet.
    pub fn begin(setting: &Setting) -> KeyCall
        ensures { result.stage ≡ start_at (locks setting.now.variant) }
    {
        KeyCall {
            stage: setting.start(),
        }
    }

    /// The next access.
    pub fn next(&self, setting: &Setting) -> Access
        requires asks { reply_of (turn_at (setting_of setting.now) self.now.stage) ≡ None }
        ensures { access_of (turn_at (setting_of setting.now) self.now.stage) ≡ Some result }
    {
        access_at(setting, &self.stage)
    }

    /// The point of the next access; `Answer` if the reply is known.
    pub fn point(&self, setting: &Setting) -> Option<Point>
        ensures { result ≡ point_of (turn_at (setting_of setting.now) self.now.stage) }
    {
        point_at(setting, &self.stage)
    }

    /// Takes what the access got, and returns the reply once it is known.
    pub fn take(&mut self, setting: &Setting, got: u64) -> Option<Reply>
        requires asks { reply_of (turn_at (setting_of setting.now) self.old.stage) ≡ None }
        ensures next { self.new.stage ≡ stage_thereafter (setting_of setting.now) self.old.stage got }
        ensures reply { reply_of (turn_at (setting_of setting.now) self.new.stage) ≡ result }
    {
        make_stage(setting, &mut self.stage, got);
        match self.stage {
            Stage::Over { outcome } => Some(reply_with(outcome)),
            _ => None,
        }
    }
}

fn reply_with(outcome: Outcome) -> Reply
    ensures { result ≡ reply_for outcome }
{
    match outcome {
        Outcome::Value { value: None } => Reply::None,
        Outcome::Value { value: Some(value) } => Reply::Some(u64::from(value)),
        Outcome::Refused => Reply::Refused,
    }
}
