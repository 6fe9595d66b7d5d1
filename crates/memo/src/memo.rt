// The memo of a search.
ghost use Rattle.std.specs.Prelude.{◌≡◌, ◌↔◌, ◌++◌, ◌∷◌, [], length, IsTrue, IsSomeAnd, slice_get, IfOk, IfErr, OnErr, ◌⊎◌, Contains};
ghost use Rattle.std.specs.Prelude.{if◌then◌else◌};
ghost use Rattle.memo.specs.Counts.{AreDistinct};
ghost use Rattle.memo.specs.Taking.{after_one, pairs_left, MayTake};

use crate::base::Base;
use crate::change::change_of;
use crate::config::Config;
use crate::form::Form;
use events::{Memory, Operation};
use indexmap::IndexSet;
use map_object::SortedMap;
use std::alloc::Global;
use std::marker::Model;

/// The configurations that a search has visited, each once, and the pairs at its start, from which
/// each differs. Contracts see the configurations in the order of their first visits.
#[derive(Drop)]
pub struct Memo {
    alloc: Global,
    base: Base,
    visited: IndexSet<Form>,
    // Room for the next form: it is looked up before anything is allocated for it.
    next: Form,
}

impl Model for Memo {
    ghost use Rattle.std.specs.Prelude.{List, All};
    ghost use Rattle.memo.specs.Configurations.{Configuration};
    ghost use Rattle.memo.specs.Kept.{configuration_from, IsKept};
    ghost use Rattle.memo.specs.Visits.{configurations_from};

    ghost Value = { List Configuration };

    ghost view = { λ m. configurations_from m.base m.visited.keys };

    ghost invariant = { λ m. All (IsKept m.base) m.visited.keys };
}

impl Memo {
    /// Returns a memo of no configurations. It takes no memory.
    pub fn new(alloc: Global) -> Memo
        ensures { result ≡ [] }
    {
        let base = Base::new();
        let next = Form::start(alloc, &base);
        Memo {
            alloc,
            base,
            visited: IndexSet::new(alloc),
            next,
        }
    }

    /// Visits the configuration, and returns whether it is new. On `Memory` it returns the
    /// configuration, and nothing has changed. The configuration is compared with the visited ones
    /// of the same digest. If the pairs at the start of its search are others than theirs, its form
    /// is made again over theirs. That costs as much as the maps.
    pub fn visit(&mut self, config: Config) -> Result<bool, (Config, Memory)>
        ensures new { IfOk result (λ new. IsTrue new ↔ (Contains self.old config → ⊥)) }
        ensures visited { IfOk result (λ new. self.new
            ≡ (if new then self.old ++ config ∷ [] else self.old)) }
        ensures handed_back { IfErr result (λ e. e.0 ≡ config) }
        ensures unchanged { OnErr result (self.new ≡ self.old) }
    {
        if may_share(&self.visited, &self.base, &config.base) {
            let Config { base, form } = config;
            return match insert(&mut self.visited, form) {
                Ok(new) => {
                    self.base = base;
                    Ok(new)
                }
                Err(form) => Err((Config { base, form }, Memory)),
            };
        }
        let Ok(form) = config.form.over(self.alloc, &config.base, &self.base) else {
            return Err((config, Memory));
        };
        match insert(&mut self.visited, form) {
            Ok(new) => Ok(new),
            Err(_refused) => Err((config, Memory)),
        }
    }

    /// Visits the configuration after one more call, and returns whether it is new. The call is the
    /// one at `place`. It comes after the configuration that was visited after `from` others, which
    /// holds the pairs of the map `before`. So the call need not be done on a map to find out. This
    /// answers as the configuration's `with` and then `visit` would. It looks at one pair only, the
    /// one that the call may change. So it costs as much as the calls taken and the pairs that differ
    /// from those at the start, and not as much as the map. On `Memory` nothing has changed.
    pub fn visit_next(
        &mut self,
        alloc: Global,
        from: usize,
        place: u32,
        call: &Operation,
        before: &SortedMap,
    ) -> Result<bool, Memory>
        requires { IsSomeAnd (slice_get self.old from) (λ c. MayTake c place before.now) }
        ensures new { IfOk result (λ new. IsSomeAnd (slice_get self.old from)
            (λ c. IsTrue new ↔ (Contains self.old (after_one c place (pairs_left before.now call.now)) → ⊥))) }
        ensures visited { IfOk result (λ new. IsSomeAnd (slice_get self.old from)
            (λ c. self.new ≡ (if new then self.old ++ after_one c place (pairs_left before.now call.now) ∷ [] else self.old))) }
        ensures unchanged { OnErr result (self.new ≡ self.old) }
    {
        let form = &self.visited.as_slice()[from];
        self.next
            .follow(form, &self.base, place, change_of(before, call))?;
        add(alloc, &mut self.visited, &self.next)
    }

    /// Returns how many configurations were visited.
    pub fn len(&self) -> usize
        ensures len { result ≡ length self.now }
        ensures distinct { AreDistinct self.now }
    {
        self.visited.len()
    }

    /// Returns whether no configuration was visited.
    pub fn is_empty(&self) -> bool
        ensures { IsTrue result ↔ (self.now ≡ []) }
    {
        self.visited.is_empty()
    }
}

/// Returns a memo of one configuration: no call is taken, and the map holds its pairs.
pub fn visited_at_start(alloc: Global, map: &SortedMap) -> Result<Memo, Memory>
    ensures { IfOk result (λ visited. visited ≡ record { taken = []; pairs = map.now } ∷ []) }
{
    let mut memo = Memo::new(alloc);
    match memo.visit(Config::start(alloc, map)?) {
        Ok(_new) => Ok(memo),
        Err(_refused) => Err(Memory),
    }
}

/// Inserts the form, and returns whether it is new. If memory runs out, it returns the form.
fn insert(visited: &mut IndexSet<Form>, form: Form) -> Result<bool, Form>
    ensures new { IfOk result (λ new. IsTrue new ↔ (Contains visited.old.keys form → ⊥)) }
    ensures visited { IfOk result (λ new. visited.new.keys
        ≡ (if new then visited.old.keys ++ form ∷ [] else visited.old.keys)) }
    ensures handed_back { IfErr result (λ refused. refused ≡ form) }
    ensures unchanged { OnErr result (visited.new.keys ≡ visited.old.keys) }
{
    match visited.insert(form) {
        Ok(new) => Ok(new),
        Err(refused) => Err(refused.value),
    }
}

/// Inserts a copy of the form if it is new, and returns whether it is. Memory is allocated only for
/// a new one.
fn add(alloc: Global, visited: &mut IndexSet<Form>, form: &Form) -> Result<bool, Memory>
    ensures new { IfOk result (λ new. IsTrue new ↔ (Contains visited.old.keys form.now → ⊥)) }
    ensures visited { IfOk result (λ new. visited.new.keys
        ≡ (if new then visited.old.keys ++ form.now ∷ [] else visited.old.keys)) }
    ensures unchanged { OnErr result (visited.new.keys ≡ visited.old.keys) }
{
    if contains(visited, form) {
        return Ok(false);
    }
    match insert(visited, form.copy(alloc)?) {
        Ok(new) => Ok(new),
        Err(_refused) => Err(Memory),
    }
}

/// Returns whether the form is among those visited.
fn contains(visited: &IndexSet<Form>, form: &Form) -> bool
    ensures { IsTrue result ↔ Contains visited.now.keys form.now }
{
    visited.contains(form)
}

/// Returns whether a form over the other pairs can be added as it is: the visited forms are over
/// the same pairs, or no form was visited.
fn may_share(visited: &IndexSet<Form>, base: &Base, other: &Base) -> bool
    ensures { IsTrue result ↔ ((visited.now.keys ≡ []) ⊎ (base.now ≡ other.now)) }
{
    visited.is_empty() || base.is_same(other)
}
