// Plans: scripts within the limits.
ghost use Rattle.std.specs.Prelude.{◌≡◌, ◌↔◌, ◌≤◌, IsTrue, IfOk, IfErr, OnErr, map, sum, length};
ghost use Rattle.plans.specs.Plans.{AreFew};

use crate::fault::PlanFault;
use art_rows::TreeCall;
use events::{MAX_CALLS, PROCESSES};
use std::marker::Model;

/// A script of calls for each process, within the limits: from 1 to `PROCESSES` scripts, with at most `MAX_CALLS` calls
/// in all. A tree can do each of them. Contracts see the list of the scripts.
#[derive(Drop)]
pub struct Plan {
    scripts: Vec<Vec<TreeCall>>,
}

impl Model for Plan {
    ghost use Rattle.std.specs.Prelude.{List, map};
    ghost use Rattle.events.specs.declared.event.Call.{Call};
    ghost use Rattle.plans.specs.Plans.{AreScripts};

    ghost Value = { List (List Call) };

    ghost view = { λ p. map (λ script. script.items) p.scripts.items };

    ghost invariant = { λ p. AreScripts (map (λ script. script.items) p.scripts.items) };
}

impl Plan {
    ghost use Rattle.plans.specs.declared.fault.PlanFault.TheVariants as faults;
    ghost use Rattle.plans.specs.Plans.{AreFew, AreTreeCalls, AreScripts};

    /// The plan of these scripts; else `TooMany`: there is no script, or there are more scripts or more calls than a plan may
    /// have. It takes no memory.
    pub fn from_scripts(scripts: Vec<Vec<TreeCall>>) -> Result<Plan, PlanFault>
        requires { AreTreeCalls (map (λ script. script.items) scripts.items) }
        ensures ok { IfOk result (λ plan. plan ≡ map (λ script. script.items) scripts.items) }
        ensures scripts { IfOk result (λ plan. AreScripts plan) }
        ensures refused { IfErr result (λ fault. fault ≡ faults.TooMany) }
        ensures many { OnErr result (AreFew (map (λ script. script.items) scripts.items) → ⊥) }
    {
        if are_few(&scripts) {
            Ok(Plan { scripts })
        } else {
            Err(PlanFault::TooMany)
        }
    }

    /// The scripts, by process.
    pub fn scripts(&self) -> &[Vec<TreeCall>]
        ensures same { map (λ script. script.items) result.now ≡ self.now }
        ensures within { AreScripts self.now }
    {
        &self.scripts
    }

    /// The scripts by value, by process.
    pub fn into_scripts(self) -> Vec<Vec<TreeCall>>
        ensures same { map (λ script. script.items) result.items ≡ self }
        ensures within { AreScripts self }
    {
        self.scripts
    }
}

/// Whether there are no more scripts and calls than a plan may have.
fn are_few(scripts: &[Vec<TreeCall>]) -> bool
    ensures { IsTrue result ↔ AreFew (map (λ script. script.items) scripts.now) }
{
    1 <= scripts.len() && scripts.len() <= PROCESSES as usize && has_room(scripts, MAX_CALLS)
}

/// Whether the scripts have at most this many calls in all.
pub fn has_room(scripts: &[Vec<TreeCall>], calls: usize) -> bool
    ensures { IsTrue result
        ↔ sum (map (λ script. length script) (map (λ script. script.items) scripts.now)) ≤ calls }
{
    let mut left = calls;
    for script in scripts {
        match left.checked_sub(script.len()) {
            Some(rest) => left = rest,
            None => return false,
        }
    }
    true
}
