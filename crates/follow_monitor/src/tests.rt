// Streams of a few events, worked by hand.
use crate::answered::Answered;
use crate::fault::FollowFault;
use crate::monitor::Monitor;
use events::{Call, Pairs, Reply};

/// Enough configurations for each of these streams.
const BUDGET: u32 = 1_000;

// insert 1 5 answered none, and get 1 answered 5: two calls, with an order
#[test]
fn a_right_stream(rt: HostRuntime) -> Result<(), FollowFault> {
    let alloc = rt.alloc();
    let monitor = Monitor::new(alloc, &[])?;
    let monitor = monitor.invoke(alloc, 0, Call::Insert(1, 5))?;
    let Answered::Going(monitor) = monitor.answer(alloc, 0, Reply::None, BUDGET)? else {
        assert!(rt; false);
        return Ok(());
    };
    let monitor = monitor.invoke(alloc, 1, Call::Get(1))?;
    let Answered::Going(monitor) = monitor.answer(alloc, 1, Reply::Some(5), BUDGET)? else {
        assert!(rt; false);
        return Ok(());
    };
    assert!(rt; monitor.calls() == 2);
    Ok(())
}

// insert 1 5 answered none, and then get 1 answered none: call 1 has no order at event 3
#[test]
fn a_stale_read(rt: HostRuntime) -> Result<(), FollowFault> {
    let alloc = rt.alloc();
    let monitor = Monitor::new(alloc, &[])?;
    let monitor = monitor.invoke(alloc, 0, Call::Insert(1, 5))?;
    let Answered::Going(monitor) = monitor.answer(alloc, 0, Reply::None, BUDGET)? else {
        assert!(rt; false);
        return Ok(());
    };
    let monitor = monitor.invoke(alloc, 1, Call::Get(1))?;
    match monitor.answer(alloc, 1, Reply::None, BUDGET)? {
        Answered::Lost(loss) => {
            assert!(rt; loss.event == 3 && loss.number == 1);
            assert!(rt; loss.puts.len() == 1);
        }
        _ => assert!(rt; false),
    }
    Ok(())
}

// a scan from 2 to 3 that reports key 4: no map answers so, whatever the events were
#[test]
fn a_scan_out_of_its_range(rt: HostRuntime) -> Result<(), FollowFault> {
    let alloc = rt.alloc();
    let monitor = Monitor::new(alloc, &[(4, 7)])?;
    let monitor = monitor.invoke(alloc, 0, Call::Scan(2, 3))?;
    let pairs = Pairs::new(vec![in alloc; (4, 7)]?);
    match monitor.answer(alloc, 0, Reply::Pairs(pairs), BUDGET)? {
        Answered::Lost(loss) => assert!(rt; loss.event == 1 && loss.part.pasts.is_empty()),
        _ => assert!(rt; false),
    }
    Ok(())
}

// an answer of a process that has no open call, and a call of one that has
#[test]
fn events_out_of_turn(rt: HostRuntime) -> Result<(), FollowFault> {
    let alloc = rt.alloc();
    let monitor = Monitor::new(alloc, &[])?;
    let Answered::Refused(monitor, fault) = monitor.answer(alloc, 0, Reply::None, BUDGET)? else {
        assert!(rt; false);
        return Ok(());
    };
    assert!(rt; fault == FollowFault::NotWellFormed);
    let monitor = monitor.invoke(alloc, 0, Call::Get(1))?;
    let refused = match monitor.invoke(alloc, 0, Call::Get(1)) {
        Ok(_) => None,
        Err(fault) => Some(fault),
    };
    assert!(rt; refused == Some(FollowFault::NotWellFormed));
    Ok(())
}

// a scan whose first key is above its last
#[test]
fn a_scan_without_keys(rt: HostRuntime) -> Result<(), FollowFault> {
    let alloc = rt.alloc();
    let monitor = Monitor::new(alloc, &[])?;
    let refused = match monitor.invoke(alloc, 0, Call::Scan(2, 1)) {
        Ok(_) => None,
        Err(fault) => Some(fault),
    };
    assert!(rt; refused == Some(FollowFault::Shape));
    Ok(())
}

// insert 1 5 and 6 are pending together, and gets one after another answer 5, 6 and 5: that has no
// order. The orders before are guessed, and with budget 1 no search says that there is none
#[test]
fn a_search_beyond_its_budget(rt: HostRuntime) -> Result<(), FollowFault> {
    let alloc = rt.alloc();
    let monitor = Monitor::new(alloc, &[])?;
    let monitor = monitor.invoke(alloc, 0, Call::Insert(1, 5))?;
    let mut monitor = monitor.invoke(alloc, 1, Call::Insert(1, 6))?;
    for value in 5..7 {
        monitor = monitor.invoke(alloc, 2, Call::Get(1))?;
        match monitor.answer(alloc, 2, Reply::Some(value), 1)? {
            Answered::Going(next) => monitor = next,
            _ => {
                assert!(rt; false);
                return Ok(());
            }
        }
    }
    let monitor = monitor.invoke(alloc, 2, Call::Get(1))?;
    match monitor.answer(alloc, 2, Reply::Some(5), 1)? {
        Answered::Spent(loss) => assert!(rt; loss.event == 7 && loss.number == 4),
        _ => assert!(rt; false),
    }
    Ok(())
}
