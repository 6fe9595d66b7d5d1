// Configurations on their own, and a memo of them: digests, equality over other starts, and what is
// visited.
ghost use Rattle.std.specs.Prelude.{◌≡◌, [], ◌∷◌, IfOk};
ghost use Rattle.map_object.specs.MapObject.{IsRising};

use map_object::SortedMap;
use memo::{Config, Memo, Places};
use std::alloc::Global;
use std::test::Fail;

/// Returns the configuration after the call at place 0 of a search that begins at the first pairs.
/// The call leaves the second pairs.
fn after_one(alloc: Global, first: &[(u64, u64)], second: &[(u64, u64)]) -> Result<Config, Fail>
    requires first { IsRising first.now }
    requires second { IsRising second.now }
    ensures { IfOk result (λ c. c ≡ record { taken = 0 ∷ []; pairs = second.now }) }
{
    let map = SortedMap::of(alloc, first)?;
    let after = SortedMap::of(alloc, second)?;
    let start = Config::start(alloc, &map)?;
    Ok(start.with(alloc, 0, &after)?)
}

/// Returns the places 0, 1 and 3.
fn three_places(alloc: Global) -> Result<Places, Fail> {
    let one = Places::new(alloc).with(alloc, 0)?;
    let two = one.with(alloc, 1)?;
    Ok(two.with(alloc, 3)?)
}

#[test]
fn a_configuration_before_any_call_of_no_pairs_mixes_nothing(rt: HostRuntime) -> Result<(), Fail> {
    let alloc = rt.alloc();
    let start = Config::start(alloc, &SortedMap::new(alloc))?;
    assert!(rt; start.digest() == 0);
    Ok(())
}

#[test]
fn equal_digests_are_not_equal_configurations(rt: HostRuntime) -> Result<(), Fail> {
    let alloc = rt.alloc();
    let bare = after_one(alloc, &[], &[])?;
    let held = after_one(alloc, &[], &[(0, 0)])?;
    assert!(rt; bare.digest() == 11400714820970677676);
    assert!(rt; held.digest() == 11400714820970677676);
    assert!(rt; bare != held);
    Ok(())
}

#[test]
fn three_places_have_one_word(rt: HostRuntime) -> Result<(), Fail> {
    let places = three_places(rt.alloc())?;
    assert!(rt; places.least_missing() == 2);
    assert!(rt; places.words() == [1].as_slice());
    Ok(())
}

/// Returns whether the configuration was new to the memo, and fails if out of memory.
fn is_new(memo: &mut Memo, config: Config) -> Option<bool> {
    match memo.visit(config) {
        Ok(new) => Some(new),
        Err(_refused) => None,
    }
}

#[test]
fn a_configuration_of_another_start_is_visited_once(rt: HostRuntime) -> Result<(), Fail> {
    let alloc = rt.alloc();
    let mut memo = Memo::new(alloc);
    assert!(rt;
        is_new(
            &mut memo,
            after_one(alloc, &[(1, 10), (2, 20)], &[(2, 21)])?
        ) == Some(true)
    );
    assert!(rt;
        is_new(
            &mut memo,
            after_one(alloc, &[(2, 21), (3, 30)], &[(2, 21)])?
        ) == Some(false)
    );
    assert!(rt;
        is_new(
            &mut memo,
            after_one(alloc, &[(2, 21), (3, 30)], &[(2, 21), (3, 30)])?
        ) == Some(true)
    );
    assert!(rt; memo.len() == 2);
    Ok(())
}
