// Lists of things that have keys, by key.
ghost use Rattle.std.specs.Prelude.{◌≡◌, ◌≤◌, ◌<◌, ℕ};
ghost use Rattle.follow_pasts.specs.Lists.{list_count, list_place};

/// How many lists there are for things of one key. It is a prime, so that keys that are multiples
/// of a power of two are in many lists.
const KEY_LISTS: u64 = 1021;

/// How many lists there are: that of things of several keys is the first one.
pub const LISTS: usize = 1022;

/// The place of the list of a thing that has the keys from `low` to `high`.
pub fn list_of(low: u64, high: u64) -> usize
    ensures place { result ≡ list_place low high }
    ensures there { result < list_count }
{
    if low == high {
        return list_of_key(low);
    }
    0
}

/// The place of the list of a thing that has one key.
pub fn list_of_key(key: u64) -> usize
    ensures place { result ≡ list_place key key }
    ensures there { result < list_count }
{
    (key % KEY_LISTS) as usize + 1
}

/// The lists of things of one key, from `low` to `high`, are from one place to before another. The
/// first list, of the things of several keys, is not among them.
pub fn lists_within(low: u64, high: u64) -> (usize, usize)
    ensures within { (key : ℕ) → low ≤ key → key ≤ high → result.0 ≤ list_place key key }
    ensures before { (key : ℕ) → low ≤ key → key ≤ high → list_place key key < result.1 }
    ensures some { 0 < result.0 }
    ensures there { result.1 ≤ list_count }
{
    if low / KEY_LISTS == high / KEY_LISTS {
        return (list_of_key(low), list_of_key(high) + 1);
    }
    (1, LISTS)
}
