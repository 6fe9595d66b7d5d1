// Calls drawn from the words of a generator.
ghost use Rattle.std.specs.Prelude.{◌≡◌, ◌<◌, ◌^◌, IfOk, IsTrue};
ghost use Rattle.art_rows.specs.TreeCalls.{is_tree_call};
ghost use Rattle.workload.specs.Drawn.{next_word, key_by, scan_between, next_call};
ghost use Rattle.workload.specs.Mixes.{IsWholeMix, HasKeys};
ghost use Rattle.workload.specs.Workloads.{script_of};

use crate::mix::Mix;
use art_rows::TreeCall;
use events::{Call, Memory};
use rand_core::utils::NextWord;
use rand_pcg::Lcg64Xsh32;
use std::alloc::Global;

/// The script of a process: this many calls from the words of its stream.
pub fn script(
    alloc: Global,
    seed: u64,
    mix: &Mix,
    calls: u32,
    process: u32,
) -> Result<Vec<TreeCall>, Memory>
    requires mix { IsWholeMix mix.now }
    requires keys { HasKeys mix.now }
    ensures { IfOk result (λ script. script.items ≡ script_of seed mix.now calls process) }
{
    let mut generator = Lcg64Xsh32::new(seed, u64::from(process));
    let mut script = Vec::new(alloc);
    for _ in 0..calls {
        script.push(tree_call(draw_call(mix, &mut generator)))?;
    }
    Ok(script)
}

/// The next call.
fn draw_call(mix: &Mix, generator: &mut Lcg64Xsh32) -> Call
    requires mix { IsWholeMix mix.now }
    requires keys { HasKeys mix.now }
    ensures drawn { (result, generator.new) ≡ next_call mix.now generator.old }
    ensures call { IsTrue (is_tree_call result) }
{
    let share = draw_word(generator) % 100;
    let key = key_of(mix, draw_word(generator));
    let insert = mix.get + mix.insert;
    let remove = insert + mix.remove;
    if share < mix.get {
        Call::Get(key)
    } else if share < insert {
        Call::Insert(key, u64::from(draw_word(generator) % (1 << 30)))
    } else if share < remove {
        Call::Remove(key)
    } else {
        scan_between(key, key_of(mix, draw_word(generator)))
    }
}

/// The next word.
fn draw_word(generator: &mut Lcg64Xsh32) -> u32
    ensures { (result, generator.new) ≡ next_word generator.old }
{
    generator.next_word()
}

/// The key for a word, as calls have it.
fn key_of(mix: &Mix, word: u32) -> u64
    requires { HasKeys mix.now }
    ensures key { result ≡ key_by mix.now word }
    ensures small { result < 2 ^ 32 }
{
    let lo = u64::from(mix.lo);
    let hi = u64::from(mix.hi);
    lo + u64::from(word) % (hi - lo + 1)
}

/// The scan from the smaller key to the greater.
fn scan_between(key: u64, other: u64) -> Call
    requires key { key < 2 ^ 32 }
    requires other { other < 2 ^ 32 }
    ensures scan { result ≡ scan_between key other }
    ensures call { IsTrue (is_tree_call result) }
{
    if key <= other {
        Call::Scan(key, other)
    } else {
        Call::Scan(other, key)
    }
}

/// A call that a tree can do, as one of a script.
fn tree_call(call: Call) -> TreeCall
    requires { IsTrue (is_tree_call call) }
    ensures { result ≡ call }
{
    TreeCall::new(&call).unwrap()
}
