// Opening a machine, and what it shows.
use crate::machines::Machine;
use crate::opening::runners;
use crate::starting::starting_words;
use art::{Shape, TreeCall, Variant};
use events::Memory;
use plans::MachineFault;
use std::alloc::Global;

impl Machine {
    ghost use Rattle.std.specs.Prelude.{◌≡◌, map, IfOk, IfErr};
    ghost use Rattle.art_core.specs.Core.{Plan, State, opened_on};
    ghost use Rattle.art_core.specs.Plans.{IsPlan};
    ghost use Rattle.art_core.specs.Starts.{StartsOn, IsStartOf};
    ghost use Rattle.machine.specs.Machines.{Shows, start_of, turns_left};
    ghost use Rattle.plans.specs.declared.fault.MachineFault.TheVariants as faults;
    ghost use Rattle.machine.specs.Running.{plan_of, IsOpened};
    ghost use Rattle.machine.specs.Starting.{IsOpenedWith, IsNotOpened};

    /// Opens a machine before its first turn, with a script for each process and at most this many
    /// turns. It starts with no pairs. It returns `Err` if memory runs out.
    pub fn open(
        alloc: Global,
        shape: Shape,
        variant: Variant,
        scripts: Vec<Vec<TreeCall>>,
        limit: u32,
    ) -> Result<Machine, MachineFault>
        requires { IsPlan (plan_of shape variant (map (λ script. script.items) scripts.items)) }
        ensures opened { IfOk result (IsOpened shape variant (map (λ script. script.items) scripts.items) limit) }
        ensures refused { IfErr result (λ fault. fault ≡ faults.Memory) }
    {
        let words = match shape.opening(alloc) {
            Ok(words) => words,
            Err(_) => return Err(MachineFault::Memory),
        };
        match Machine::open_on(
            alloc,
            shape,
            variant,
            Vec::new(alloc),
            words,
            scripts,
            limit,
        ) {
            Ok(machine) => Ok(machine),
            Err(_) => Err(MachineFault::Memory),
        }
    }

    /// Opens a machine with pairs of a key and a value in the tree, by rising key. They are
    /// inserted one after another by steps of the variant, which are no turns of the machine. It
    /// returns `StartRefused` if one of them has no place in the tree, and else `Memory` if memory
    /// runs out. `starts_end` is the law that the steps are enough.
    pub fn open_with(
        alloc: Global,
        shape: Shape,
        variant: Variant,
        start: Vec<(u64, u64)>,
        scripts: Vec<Vec<TreeCall>>,
        limit: u32,
    ) -> Result<Machine, MachineFault>
        requires plan { IsPlan (plan_of shape variant (map (λ script. script.items) scripts.items)) }
        requires start { IsStartOf (plan_of shape variant (map (λ script. script.items) scripts.items)) start.items }
        ensures opened { IfOk result (IsOpenedWith shape variant start.items (map (λ script. script.items) scripts.items) limit) }
        ensures refused { IfErr result (IsNotOpened shape variant start.items) }
    {
        let words = starting_words(alloc, shape, variant, &start)?;
        match Machine::open_on(alloc, shape, variant, start, words, scripts, limit) {
            Ok(machine) => Ok(machine),
            Err(_) => Err(MachineFault::Memory),
        }
    }

    /// A machine before its first turn, on these words.
    fn open_on(
        alloc: Global,
        shape: Shape,
        variant: Variant,
        start: Vec<(u64, u64)>,
        words: Vec<u64>,
        scripts: Vec<Vec<TreeCall>>,
        limit: u32,
    ) -> Result<Machine, Memory>
        requires plan { IsPlan (plan_of shape variant (map (λ script. script.items) scripts.items)) }
        requires start { IsStartOf (plan_of shape variant (map (λ script. script.items) scripts.items)) start.items }
        requires words { StartsOn shape variant start.items words.items }
        ensures shows { IfOk result (λ m. Shows (plan_of shape variant (map (λ script. script.items) scripts.items)) m
            (opened_on (plan_of shape variant (map (λ script. script.items) scripts.items)) words.items)) }
        ensures left { IfOk result (λ m. turns_left m ≡ limit) }
        ensures start { IfOk result (λ m. start_of m ≡ start.items) }
    {
        let runners = runners(alloc, scripts)?;
        Ok(Machine {
            shape,
            variant,
            start,
            left: limit,
            words,
            runners,
        })
    }

    /// The words of the table.
    pub fn words(&self) -> &[u64]
        ensures { (plan : Plan) (s : State) → Shows plan self.now s → result.now ≡ s.words }
    {
        &self.words
    }
}
