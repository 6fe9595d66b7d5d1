//! Work of some threads, repeated so that its time can be measured from outside: `rates WORK
//! THREADS ROUNDS`. In a round each thread notes 1,024 calls and their answers at one recorder
//! (`recorder`), or does the 1,024 calls of its script on one tree (`coupled`, `optimistic`). Or it
//! adds 2,048 times to one shared word (`word`), or does nothing (`neither`). The program prints
//! how many events were noted, or additions made.
#![tactic(auto)]

mod rounds;

use rounds::{RoundWork, done_in};
use std::io::ErrorKind;
use std::{env, io};

/// The most threads: there is room for this many processes with 1,024 calls each.
const MAX_THREADS: u8 = 4;

fn main(rt: HostRuntime) -> io::Result<()> {
    let words: Vec<String> = match env::args(&rt)?.collect(rt.alloc()) {
        Ok(words) => words,
        Err(_) => return Err(io::Error::from(ErrorKind::OutOfMemory)),
    };
    let [_, work, threads, rounds] = words.as_slice() else {
        return Err(io::Error::from(ErrorKind::InvalidInput));
    };
    let (Some(work), Ok(threads), Ok(rounds)) = (
        RoundWork::of_name(work),
        threads.parse::<u8>(),
        rounds.parse::<u32>(),
    ) else {
        return Err(io::Error::from(ErrorKind::InvalidInput));
    };
    if threads < 1 || threads > MAX_THREADS {
        return Err(io::Error::from(ErrorKind::InvalidInput));
    }
    match done_in(&rt, rt.alloc(), work, threads, rounds) {
        Ok(done) => println!(rt; "{done}"),
        Err(_) => Err(io::Error::from(ErrorKind::OutOfMemory)),
    }
}
