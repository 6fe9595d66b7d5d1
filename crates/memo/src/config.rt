// Configurations of a search.
ghost use Rattle.std.specs.Prelude.{◌≡◌, ◌↔◌, [], IsTrue, All, IfOk, Contains};
ghost use Rattle.map_object.specs.MapObject.{value_at};
ghost use Rattle.memo.specs.Digest.{digest_of};
ghost use Rattle.memo.specs.Taking.{after_one};

use crate::base::Base;
use crate::form::Form;
use events::Memory;
use map_object::SortedMap;
use std::alloc::Global;
use std::hash::{Hash, Hasher};
use std::marker::Model;

/// A state of a search: the set of calls taken, and the pairs that the map then holds. A call is
/// named by its place in the list of calls. Contracts see the places by rising number, and the
/// pairs by rising key. A configuration shares the pairs at the start of its search, and stores
/// only what differs from them.
#[derive(Drop)]
pub struct Config {
    pub(crate) base: Base,
    pub(crate) form: Form,
}

impl Model for Config {
    ghost use Rattle.memo.specs.Configurations.{Configuration};
    ghost use Rattle.memo.specs.Kept.{configuration_from, IsKept};

    ghost Value = { Configuration };

    ghost view = { λ c. configuration_from c.base c.form };

    ghost invariant = { λ c. IsKept c.base c.form };
}

/// Two configurations are equal exactly if they have taken the same calls and hold the same pairs.
/// The starts of their searches do not matter. Most unequal configurations have unequal digests.
impl PartialEq for Config {
    ghost use Rattle.std.specs.Prelude.{◌≡◌, ◌↔◌, IsTrue};
    ghost use Rattle.std.specs.Cmp.{partial_equiv_from_equiv};
    ghost use Rattle.memo.specs.Equality.{is_same, is_same-equivalence};

    ghost eq = { is_same };

    ghost laws = { partial_equiv_from_equiv is_same-equivalence };

    fn eq(&self, other: &Config) -> bool
        ensures value { result ≡ is_same self.now other.now }
        ensures exact { IsTrue result ↔ (self.now ≡ other.now) }
    {
        is_equal(self, other)
    }
}

impl Eq for Config {
    ghost use Rattle.memo.specs.Equality.{is_same-equivalence};

    ghost laws = { is_same-equivalence };
}

/// Only the digest is hashed.
impl Hash for Config {
    ghost use Rattle.std.specs.Hash as fed;
    ghost use Rattle.memo.specs.Digest.{digest_of};
    ghost use Rattle.memo.specs.Equality.{same_digest};

    ghost hash_input = { λ c. fed.u64 (digest_of c) };

    ghost respects_eq = { λ a b same. same_digest fed.u64 a b same };

    fn hash<H: Hasher>(&self, state: &mut H) {
        state.write_u64(self.digest());
    }
}

impl Config {
    /// Returns the configuration at which a search begins: no call is taken, and the map holds its
    /// pairs. The pairs are copied once: all configurations reached from this one share the copy.
    pub fn start(alloc: Global, map: &SortedMap) -> Result<Config, Memory>
        ensures { IfOk result (λ c. c ≡ record { taken = []; pairs = map.now }) }
    {
        let base = Base::of(alloc, map)?;
        let form = Form::start(alloc, &base);
        Ok(Config { base, form })
    }

    /// Returns the configuration after one more call: the one at `place`, which leaves the map
    /// `after`. It compares `after` with the pairs at the start, so it costs as much as these maps.
    pub fn with(&self, alloc: Global, place: u32, after: &SortedMap) -> Result<Config, Memory>
        requires { Contains self.now.taken place → ⊥ }
        ensures { IfOk result (λ c. c ≡ after_one self.now place after.now) }
    {
        let base = self.base.share()?;
        let form = self.form.with(alloc, &self.base, place, after)?;
        Ok(Config { base, form })
    }

    /// Returns the sum modulo 2^64 of the mixed numbers of the calls taken and of the pairs held.
    /// Equal configurations have equal digests.
    pub fn digest(&self) -> u64
        ensures { result ≡ digest_of self.now }
    {
        self.form.digest()
    }
}

/// Returns whether both have taken the same calls and hold the same pairs.
fn is_equal(a: &Config, b: &Config) -> bool
    ensures { IsTrue result ↔ (a.now ≡ b.now) }
{
    if a.form.digest() != b.form.digest() {
        return false;
    }
    if !a.form.has_taken_as(&b.form) {
        return false;
    }
    holds_as(a, b)
}

/// Returns whether both hold the same pairs.
fn holds_as(a: &Config, b: &Config) -> bool
    ensures { IsTrue result ↔ (a.now.pairs ≡ b.now.pairs) }
{
    if !agree(a, b, a.base.pairs()) {
        return false;
    }
    if !agree(a, b, a.form.put()) {
        return false;
    }
    if !agree(a, b, b.base.pairs()) {
        return false;
    }
    agree(a, b, b.form.put())
}

/// Returns whether both have the same value, or none, at each key of these pairs.
fn agree(a: &Config, b: &Config, pairs: &[(u64, u64)]) -> bool
    ensures { IsTrue result ↔ All (λ pair. value_at a.now.pairs pair.0 ≡ value_at b.now.pairs pair.0) pairs.now }
{
    for pair in pairs {
        if a.form.value(&a.base, pair.0) != b.form.value(&b.base, pair.0) {
            return false;
        }
    }
    true
}
