// The form in which a configuration is stored.
ghost use Rattle.std.specs.Prelude.{◌≡◌, ◌↔◌, [], IsTrue, IfOk, OnOk, Contains};
ghost use Rattle.memo.specs.Kept.{configuration_from, IsKept};
ghost use Rattle.memo.specs.Taking.{after_one};
ghost use Rattle.memo.specs.Changes.{changed};
ghost use Rattle.map_object.specs.MapObject.{value_at};

use crate::base::Base;
use crate::change::Change;
use crate::differences::{
    Changes, difference, pairs_from, value_at, value_from, value_gone, value_put, write_with_value,
};
use crate::digests::{mix, mix_value, sum_of};
use crate::places::Places;
use events::Memory;
use map_object::SortedMap;
use std::alloc::Global;
use std::hash::{Hash, Hasher};
use std::marker::Model;

/// The part of a configuration that is stored apart from the pairs at the start of its search. It
/// has the set of calls taken, the pairs held that are not among those at the start, and the pairs
/// at the start whose keys are gone. Its memory grows with the calls taken and their keys, and not
/// with the map.
#[derive(Drop)]
pub(crate) struct Form {
    places: Places,
    put: Vec<(u64, u64)>,
    gone: Vec<(u64, u64)>,
    digest: u64,
}

impl Model for Form {
    ghost use Rattle.memo.specs.Kept.{Kept};

    ghost Value = { Kept };

    ghost view = { λ c. record {
      taken = c.places;
      put = c.put.items;
      gone = c.gone.items;
      digest = c.digest;
    } };
}

/// Two forms over the same start are equal exactly if they have taken the same calls and hold the
/// same pairs. Most unequal forms have unequal digests, and comparing these is enough. Otherwise
/// the cost is at most that of the calls and the changed pairs of one form.
impl PartialEq for Form {
    ghost use Rattle.std.specs.Prelude.{◌≡◌};
    ghost use Rattle.std.specs.Cmp.{partial_equiv_from_equiv};
    ghost use Rattle.memo.specs.Kept.{is_kept_same, is_kept_same-equivalence};

    ghost eq = { is_kept_same };

    ghost laws = { partial_equiv_from_equiv is_kept_same-equivalence };

    fn eq(&self, other: &Form) -> bool
        ensures { result ≡ is_kept_same self.now other.now }
    {
        if self.digest != other.digest {
            return false;
        }
        self.places.is_same(&other.places) && self.put == other.put && self.gone == other.gone
    }
}

impl Eq for Form {
    ghost use Rattle.memo.specs.Kept.{is_kept_same-equivalence};

    ghost laws = { is_kept_same-equivalence };
}

/// Only the digest is hashed.
impl Hash for Form {
    ghost use Rattle.std.specs.Hash as fed;
    ghost use Rattle.memo.specs.Kept.{same_kept_digest};

    ghost hash_input = { λ c. fed.u64 c.digest };

    ghost respects_eq = { λ a b same. same_kept_digest fed.u64 a b same };

    fn hash<H: Hasher>(&self, state: &mut H) {
        state.write_u64(self.digest);
    }
}

impl Form {
    /// Returns the form in which no call is taken and no pair differs from the start. It takes no
    /// memory.
    pub(crate) fn start(alloc: Global, base: &Base) -> Form
        ensures kept { IsKept base.now result }
        ensures is { configuration_from base.now result ≡ record { taken = []; pairs = base.now } }
    {
        Form {
            places: Places::new(alloc),
            put: Vec::new(alloc),
            gone: Vec::new(alloc),
            digest: sum_of(base.pairs()),
        }
    }

    /// Returns the stored digest.
    pub(crate) fn digest(&self) -> u64
        ensures { result ≡ self.now.digest }
    {
        self.digest
    }

    /// Returns whether both have taken the same calls.
    pub(crate) fn has_taken_as(&self, other: &Form) -> bool
        ensures { IsTrue result ↔ (self.now.taken ≡ other.now.taken) }
    {
        self.places.is_same(&other.places)
    }

    /// Returns the pairs that are not among those at the start.
    pub(crate) fn put(&self) -> &[(u64, u64)]
        ensures { result.now ≡ self.now.put }
    {
        &self.put
    }

    /// Returns the value at a key, over the pairs at the start.
    pub(crate) fn value(&self, base: &Base, key: u64) -> Option<u64>
        requires { IsKept base.now self.now }
        ensures { result ≡ value_at (configuration_from base.now self.now).pairs key }
    {
        value_from(
            base.value(key),
            value_at(&self.put, key),
            value_at(&self.gone, key),
        )
    }

    /// Returns the form of the same configuration over other pairs at the start. It costs as much
    /// as these and the map.
    pub(crate) fn over(&self, alloc: Global, base: &Base, other: &Base) -> Result<Form, Memory>
        requires { IsKept base.now self.now }
        ensures kept { IfOk result (IsKept other.now) }
        ensures is { IfOk result (λ f. configuration_from other.now f ≡ configuration_from base.now self.now) }
    {
        let held = pairs_from(alloc, base.pairs(), &self.put, &self.gone)?;
        let Changes { put, gone } = difference(alloc, other.pairs(), &held)?;
        Ok(Form {
            places: self.places.copy(alloc)?,
            put,
            gone,
            digest: self.digest,
        })
    }

    /// Returns the form of the configuration after one more call: the one at `place`, which leaves
    /// the map `after`. It costs as much as the calls taken and three maps: at the start, before
    /// the call and after it.
    pub(crate) fn with(
        &self,
        alloc: Global,
        base: &Base,
        place: u32,
        after: &SortedMap,
    ) -> Result<Form, Memory>
        requires new { Contains self.now.taken place → ⊥ }
        requires kept { IsKept base.now self.now }
        ensures kept { IfOk result (IsKept base.now) }
        ensures is { IfOk result (λ f. configuration_from base.now f
            ≡ after_one (configuration_from base.now self.now) place after.now) }
    {
        let held = pairs_from(alloc, base.pairs(), &self.put, &self.gone)?;
        let Changes { put, gone } = difference(alloc, base.pairs(), after.pairs())?;
        let digest = self
            .digest
            .wrapping_add(mix(place as u64 + 1))
            .wrapping_sub(sum_of(&held))
            .wrapping_add(sum_of(after.pairs()));
        Ok(Form {
            places: self.places.with(alloc, place as usize)?,
            put,
            gone,
            digest,
        })
    }

    /// Returns a copy of the form.
    pub(crate) fn copy(&self, alloc: Global) -> Result<Form, Memory>
        ensures { IfOk result (λ f. f ≡ self.now) }
    {
        Ok(Form {
            places: self.places.copy(alloc)?,
            put: Vec::from_slice(alloc, &self.put)?,
            gone: Vec::from_slice(alloc, &self.gone)?,
            digest: self.digest,
        })
    }

    /// Becomes the form after a call that makes this change, or none. It costs as much as it copies:
    /// the bits of the calls taken, and the pairs that differ from those at the start. Only the pair
    /// that changed is mixed again. It takes memory only if it has less room than that. On `Memory`
    /// it is any form.
    pub(crate) fn follow(
        &mut self,
        before: &Form,
        base: &Base,
        place: u32,
        change: Option<Change>,
    ) -> Result<(), Memory>
        requires new { Contains before.now.taken place → ⊥ }
        requires kept { IsKept base.now before.now }
        ensures kept { OnOk result (IsKept base.now self.new) }
        ensures is { OnOk result (configuration_from base.now self.new
            ≡ after_one (configuration_from base.now before.now) place
            (changed change (configuration_from base.now before.now).pairs)) }
    {
        let room = self.places.take_room();
        self.places = before.places.with_in(room, place as usize)?;
        let digest = before.digest.wrapping_add(mix(place as u64 + 1));
        let Some(change) = change else {
            write_copy(&mut self.put, &before.put)?;
            write_copy(&mut self.gone, &before.gone)?;
            self.digest = digest;
            return Ok(());
        };
        let first = base.value(change.key);
        let was = value_from(
            first,
            value_at(&before.put, change.key),
            value_at(&before.gone, change.key),
        );
        write_with_value(
            &mut self.put,
            &before.put,
            change.key,
            value_put(first, change.value),
        )?;
        write_with_value(
            &mut self.gone,
            &before.gone,
            change.key,
            value_gone(first, change.value),
        )?;
        self.digest = digest
            .wrapping_sub(mix_value(change.key, was))
            .wrapping_add(mix_value(change.key, change.value));
        Ok(())
    }
}

/// Writes a copy of pairs into the room of a list.
fn write_copy(room: &mut Vec<(u64, u64)>, pairs: &[(u64, u64)]) -> Result<(), Memory>
    ensures { OnOk result (room.new.items ≡ pairs.now) }
{
    room.clear();
    room.extend_from_slice(pairs)?;
    Ok(())
}
