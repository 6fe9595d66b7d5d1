// Numbers drawn by two threads, and a part of the draws that is missing.
ghost use Rattle.std.specs.Prelude.{◌≡◌, ◌++◌, IfOk};
ghost use Rattle.tickets.specs.Hands.{counter, counter_of, drawn_by};

use std::alloc::{AllocError, Global};
use std::test::Fail;
use std::thread::join_mut;
use tickets::{Hand, Tickets};

// Draws all that the hand has left.
fn draw_all(alloc: Global, tickets: &Tickets, hand: &mut Hand) -> Result<Vec<u64>, AllocError>
    requires { counter_of hand.old ≡ counter tickets.now }
    ensures own { counter_of hand.new ≡ counter_of hand.old }
    ensures drawn { IfOk result (λ v. drawn_by hand.new ≡ drawn_by hand.old ++ v.items) }
{
    let mut numbers = Vec::new(alloc);
    while hand.left() > 0 {
        numbers.push(tickets.draw(hand))?;
    }
    Ok(numbers)
}

#[test]
fn two_threads_draw_each_number_once(rt: HostRuntime) -> Result<(), Fail> {
    let alloc = rt.alloc();
    let (tickets, mut first) = Tickets::open(alloc, 1000)?;
    let mut second = tickets.split(&mut first, 500);
    let (firsts, seconds) = join_mut(
        &rt,
        &mut || draw_all(alloc, &tickets, &mut first),
        &mut || draw_all(alloc, &tickets, &mut second),
    );
    let mut numbers = firsts?;
    numbers.extend_from_slice(&seconds?)?;
    numbers.sort_unstable();
    let wanted: Vec<u64> = (0..1000).collect(alloc)?;
    assert!(rt; numbers == wanted);
    Ok(())
}

#[test]
fn without_a_part_both_come_back_and_go_on(rt: HostRuntime) -> Result<(), Fail> {
    let (tickets, mut first) = Tickets::open(rt.alloc(), 3)?;
    let mut second = tickets.split(&mut first, 1);
    assert!(rt; tickets.draw(&mut first) == 0);
    let Err((tickets, mut first)) = tickets.close(first) else {
        panic!(rt; "a part was missing");
    };
    assert!(rt; tickets.draw(&mut second) == 1 && tickets.draw(&mut first) == 2);
    tickets.join(&mut first, second);
    assert!(rt; matches!(tickets.close(first), Ok(3)));
    Ok(())
}
