// Digests.
ghost use Rattle.std.specs.Prelude.{◌≡◌, ◌+◌, ◌%◌, ◌^◌};
ghost use Rattle.std.specs.List.{sum_by};
ghost use Rattle.memo.specs.Digest.{mix, mix_pair, mix_value};

/// An odd number near 2^64 divided by the golden ratio: Knuth's multiplicative hashing.
const MULTIPLIER: u64 = 11400714819323198485;

/// Mixes a number, so that most lists have different sums of mixed numbers. It costs one
/// multiplication.
pub fn mix(number: u64) -> u64
    ensures { result ≡ mix number }
{
    let product = number.wrapping_mul(MULTIPLIER);
    product ^ (product >> 32)
}

/// Mixes a pair of a key and a value.
pub(crate) fn mix_pair(pair: (u64, u64)) -> u64
    ensures { result ≡ mix_pair pair }
{
    mix(mix(pair.0).wrapping_add(pair.1))
}

/// Mixes a key with its value, or returns 0 if it has none.
pub fn mix_value(key: u64, value: Option<u64>) -> u64
    ensures { result ≡ mix_value key value }
{
    match value {
        Some(value) => mix_pair((key, value)),
        None => 0,
    }
}

/// Returns what pairs add to a digest.
pub(crate) fn sum_of(pairs: &[(u64, u64)]) -> u64
    ensures { result ≡ sum_by mix_pair pairs.now % 2 ^ 64 }
{
    let mut sum = 0u64;
    for pair in pairs {
        sum = sum.wrapping_add(mix_pair(*pair));
    }
    sum
}
