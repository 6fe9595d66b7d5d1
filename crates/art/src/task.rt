// A call as it goes on, one access at a time.
ghost use Rattle.std.specs.Prelude.{◌≡◌, ℕ, ◌<◌, false, List, [], ◌∷◌, Some, None, OnOk, is_some};
ghost use Rattle.art_rows.specs.Act.{act};
ghost use Rattle.art_rows.specs.Steps.{access_of, reply_of};
ghost use Rattle.art_control_states.specs.Calls.{rest_at, call_begun};
ghost use Rattle.art_control_states.specs.Settings.{setting_of as call_setting};
ghost use Rattle.art.specs.Going.{at_of, keys_between, scanned_in, WordsLeadTo};

use crate::key_call::KeyCall;
use art_control_states::Setting;
use art_rows::{Access, Point, Shape, TreeCall, Variant};
use art_scan::Scanning;
use events::{Call, Memory, Reply};
use std::alloc::Global;

/// The stage of a call.
#[derive(Drop)]
pub(crate) enum Going {
    OnKey(KeyCall),
    OnScan(Scanning),
}

/// A call under way. It keeps what it still needs, and none of the words that it got.
#[derive(Drop)]
pub struct Task {
    pub(crate) setting: Setting,
    pub(crate) going: Going,
    ghost keys: { keys_between setting.call ≡ scanned_in going },
    ghost reached: { is_some (reply_of (rest_at (call_setting setting) (at_of going) [])) ≡ false
        → ∥ WordsLeadTo (call_setting setting) (at_of going) ∥₁ },
}

impl Task {
    ghost use Rattle.art_rows.specs.Act.{point_of};
    ghost use Rattle.art_rows.specs.Fits.{word_of};
    ghost use Rattle.art_rows.specs.Table.{table_words, IsWithinLimits};
    ghost use Rattle.art.specs.Tasks.{rest_of, shape_of, IsReady};

    /// A call that has made no access yet.
    pub fn begin(shape: Shape, variant: Variant, call: TreeCall) -> Task
        requires { IsWithinLimits shape }
        ensures shape { shape_of result ≡ shape }
        ensures act { (rest : List ℕ) → rest_of result rest ≡ act shape variant call rest }
        ensures asks { is_some (reply_of (rest_of result [])) ≡ false }
    {
        let setting = Setting {
            shape,
            variant,
            call,
        };
        Task {
            setting,
            going: beginning_of(&setting),
        }
    }

    /// Takes the room that the next access may need. If memory runs out, the call is unchanged.
    pub fn ready(&mut self, alloc: Global) -> Result<(), Memory>
        ensures shape { shape_of self.new ≡ shape_of self.old }
        ensures room { OnOk result (IsReady self.new) }
        ensures same { (rest : List ℕ) → rest_of self.new rest ≡ rest_of self.old rest }
    {
        match &mut self.going {
            Going::OnKey(_) => Ok(()),
            Going::OnScan(scan) => scan.ready(alloc),
        }
    }

    /// The next access.
    pub fn next(&self) -> Access
        requires asks { reply_of (rest_of self.now []) ≡ None }
        ensures access { access_of (rest_of self.now []) ≡ Some result }
        ensures in_table { word_of result < table_words (shape_of self.now) }
    {
        match &self.going {
            Going::OnKey(call) => call.next(&self.setting),
            Going::OnScan(scan) => scan.next(&self.setting),
        }
    }

    /// The point of the next access; `Answer` if the reply is known.
    pub fn point(&self) -> Option<Point>
        ensures { result ≡ point_of (rest_of self.now []) }
    {
        match &self.going {
            Going::OnKey(call) => call.point(&self.setting),
            Going::OnScan(scan) => scan.point(&self.setting),
        }
    }

    /// Takes what the access got, and returns the reply once it is known. A scan gives its pairs
    /// away with it.
    pub fn take(&mut self, got: u64) -> Option<Reply>
        requires asks { reply_of (rest_of self.old []) ≡ None }
        requires ready { IsReady self.old }
        ensures shape { shape_of self.new ≡ shape_of self.old }
        ensures fits { result ≡ None → (rest : List ℕ) → rest_of self.new rest ≡ rest_of self.old (got ∷ rest) }
        ensures reply { reply_of (rest_of self.old (got ∷ [])) ≡ result }
        ensures over { is_some (reply_of (rest_of self.new [])) ≡ is_some result }
    {
        match &mut self.going {
            Going::OnKey(call) => call.take(&self.setting, got),
            Going::OnScan(scan) => scan.take(&self.setting, got),
        }
    }
}

/// The stage at which a call begins.
fn beginning_of(setting: &Setting) -> Going
    ensures at { at_of result ≡ call_begun (call_setting setting.now) }
    ensures keys { keys_between setting.now.call ≡ scanned_in result }
{
    match setting.call.call() {
        Call::Scan(low, high) => Going::OnScan(Scanning::begin(setting, low, high)),
        _ => Going::OnKey(KeyCall::begin(setting)),
    }
}
