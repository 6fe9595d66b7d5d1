// Processes of two groups, by their numbers.
ghost use Rattle.std.specs.Prelude.{◌≡◌, ◌+◌, ◌<◌, ◌≤◌, vec_len, vec_capacity, insert, length, [], ◌++◌};
ghost use Rattle.running.specs.Views.{placed, merge};
ghost use Rattle.running.specs.declared.runner.Runner.{Runner};

use crate::runner::Runner;

/// Takes in other processes, by their numbers. It takes no memory.
pub fn gather(runners: &mut Vec<(u8, Runner)>, mut others: Vec<(u8, Runner)>)
    requires room { vec_len runners.old + vec_len others ≤ vec_capacity runners.old }
    ensures items { runners.new.items ≡ merge runners.old.items others.items }
    ensures long { vec_len runners.old ≤ vec_len runners.new }
    ensures capacity { vec_capacity runners.old ≤ vec_capacity runners.new }
{
    for _taken in 0..others.len() {
        move_last(runners, &mut others);
    }
}

/// Moves the last of the others to its place in the list.
fn move_last(runners: &mut Vec<(u8, Runner)>, others: &mut Vec<(u8, Runner)>)
    requires some { 0 < vec_len others.old }
    requires room { vec_len runners.old < vec_capacity runners.old }
    ensures items { merge runners.new.items others.new.items ≡ merge runners.old.items others.old.items }
    ensures long { vec_len runners.new ≡ vec_len runners.old + 1 }
    ensures shorter { vec_len others.new + 1 ≡ vec_len others.old }
    ensures capacity { vec_capacity runners.old ≤ vec_capacity runners.new }
{
    match others.pop() {
        Some(runner) => put(runners, runner),
        None => unreachable!(),
    }
}

/// Puts a process at its place.
fn put(runners: &mut Vec<(u8, Runner)>, runner: (u8, Runner))
    requires room { vec_len runners.old < vec_capacity runners.old }
    ensures items { runners.new.items ≡ placed runner runners.old.items }
    ensures long { vec_len runners.new ≡ vec_len runners.old + 1 }
    ensures capacity { vec_capacity runners.old ≤ vec_capacity runners.new }
{
    let place = place_for(runners, runner.0);
    if let Err(_) = runners.insert(place, runner) {
        unreachable!()
    }
}

/// Returns the place of a number: before the first one that is greater.
fn place_for(runners: &[(u8, Runner)], number: u8) -> usize
    ensures within { result ≤ length runners.now }
    ensures place { (runner : Runner) → placed (number, runner) runners.now ≡ insert runners.now result (number, runner) }
{
    for place in 0..runners.len() {
        if number < runners[place].0 {
            return place;
        }
    }
    runners.len()
}

/// Moves the last process to an empty list.
pub fn give_last(runners: &mut Vec<(u8, Runner)>, other: &mut Vec<(u8, Runner)>)
    requires some { 0 < vec_len runners.old }
    requires empty { other.old.items ≡ [] }
    requires room { vec_len other.old < vec_capacity other.old }
    ensures parts { runners.old.items ≡ runners.new.items ++ other.new.items }
    ensures long { vec_len runners.new + 1 ≡ vec_len runners.old }
    ensures some { 0 < vec_len other.new }
    ensures capacity { vec_capacity runners.old ≤ vec_capacity runners.new }
    ensures other_capacity { vec_capacity other.old ≤ vec_capacity other.new }
{
    match runners.pop() {
        None => unreachable!(),
        Some(last) => {
            if let Err(_) = other.push(last) {
                unreachable!()
            }
        }
    }
}
