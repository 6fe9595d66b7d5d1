// A scan as it goes on, one access at a time.
ghost use Rattle.std.specs.Prelude.{◌≡◌, true};
ghost use Rattle.art_scan.specs.Sound.{is_sound_step};

use crate::lists::Lists;
use crate::steps::make_step;
use crate::turns::{access_at, point_at};
use crate::walks::enter;
use art_control_states::{Entry, ScanStep, Setting};
use art_rows::{Access, Point};
use events::{Memory, Reply};
use std::alloc::Global;
use std::mem;

/// A scan under way between two keys, both included. It takes its first room when it is made ready.
#[derive(Drop)]
pub struct Scanning {
    pub(crate) low: u64,
    pub(crate) high: u64,
    pub(crate) step: ScanStep,
    pub(crate) lists: Option<Lists>,
    ghost sound: { is_sound_step step ≡ true },
}

impl Scanning {
    ghost use Rattle.std.specs.Prelude.{Some, None, OnOk, is_some};
    ghost use Rattle.art_rows.specs.Steps.{access_of, reply_of};
    ghost use Rattle.art_rows.specs.Act.{point_of};
    ghost use Rattle.art_control_states.specs.Scans.{scan_start, scan_turn};
    ghost use Rattle.art_control_states.specs.Settings.{setting_of};
    ghost use Rattle.events.specs.declared.event.Reply.TheVariants.{Pairs};
    ghost use Rattle.art_scan.specs.Scans.{walk_in, scan_of, scan_after_word, low_of, high_of, IsRoomy};

    /// A scan that has made no access yet.
    pub fn begin(setting: &Setting, low: u64, high: u64) -> Scanning
        ensures low { low_of result ≡ low }
        ensures high { high_of result ≡ high }
        ensures begins { scan_of result ≡ scan_start (setting_of setting.now) }
    {
        let mut step = ScanStep::Over;
        enter(setting, Entry::Root, &mut step);
        Scanning {
            low,
            high,
            step,
            lists: None,
        }
    }

    /// Takes the room that the next access may need.
    #[inline(always)]
    pub fn ready(&mut self, alloc: Global) -> Result<(), Memory>
        ensures low { low_of self.new ≡ low_of self.old }
        ensures high { high_of self.new ≡ high_of self.old }
        ensures room { OnOk result (IsRoomy self.new) }
        ensures same { scan_of self.new ≡ scan_of self.old }
    {
        match &mut self.lists {
            Some(lists) => lists.reserve(),
            None => {
                let mut lists = Lists::new(alloc);
                let reserved = lists.reserve();
                self.lists = Some(lists);
                reserved
            }
        }
    }

    /// The next access.
    pub fn next(&self, setting: &Setting) -> Access
        requires asks { reply_of (scan_turn (setting_of setting.now) (scan_of self.now)) ≡ None }
        ensures { access_of (scan_turn (setting_of setting.now) (scan_of self.now)) ≡ Some result }
    {
        access_at(setting, &self.step)
    }

    /// The point of the next access; `Answer` if the reply is known.
    pub fn point(&self, setting: &Setting) -> Option<Point>
        ensures { result ≡ point_of (scan_turn (setting_of setting.now) (scan_of self.now)) }
    {
        point_at(setting, self.step)
    }

    /// Takes what the access got, and returns the reply once it is known, with the pairs that the
    /// scan has found.
    pub fn take(&mut self, setting: &Setting, got: u64) -> Option<Reply>
        requires room { IsRoomy self.old }
        ensures low { low_of self.new ≡ low_of self.old }
        ensures high { high_of self.new ≡ high_of self.old }
        ensures next { result ≡ None → scan_of self.new ≡ scan_after_word (setting_of setting.now) self.old got }
        ensures reply { reply_of (scan_turn (setting_of setting.now) (scan_after_word (setting_of setting.now) self.old got)) ≡ result }
        ensures over { is_some (reply_of (scan_turn (setting_of setting.now) (scan_of self.new))) ≡ is_some result }
    {
        match &mut self.lists {
            None => unreachable!(),
            Some(lists) => {
                make_step(setting, self.low, self.high, &mut self.step, got, lists);
                match self.step {
                    ScanStep::Over => {}
                    _ => return None,
                }
            }
        }
        Some(Scanning::give_pairs(&mut self.lists))
    }

    /// The reply of a scan that is over, which gives its pairs away. It is a function of its own,
    /// so that a step before the end clears no room for the reply.
    fn give_pairs(lists: &mut Option<Lists>) -> Reply
        requires { is_some lists.old ≡ true }
        ensures pairs { result ≡ Pairs (walk_in lists.old).pairs }
        ensures given { lists.new ≡ None }
    {
        match mem::replace(lists, None) {
            None => unreachable!(),
            Some(lists) => Reply::Pairs(lists.into_pairs()),
        }
    }
}
