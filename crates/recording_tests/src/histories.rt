// What no subcommand calls: histories of events alone, copies of segments, and the texts of faults
// for people.
use cli_outcome::history_fault_line;
use events::{Call, Event, History, HistoryFault};
use orders::Segment;
use std::test::Fail;

#[test]
fn a_segment_of_events_alone_is_copied(rt: HostRuntime) -> Result<(), Fail> {
    let alloc = rt.alloc();
    let begun = Event::Invoke {
        process: 0,
        call: Call::Insert(5, 7),
    };
    let history = History::from_events(alloc, vec![in alloc; begun]?)?;
    let Some(whole) = Segment::whole(alloc, &history)? else {
        return Err(Fail::new("no segment"));
    };
    assert!(rt; whole.copy(alloc)?.calls().len() == 1);
    Ok(())
}

// The text of a fault for people is its line without the word before it.
#[test]
fn fault_lines_are_the_texts_of_faults(rt: HostRuntime) -> Result<(), Fail> {
    let faults = [
        HistoryFault::TooLong,
        HistoryFault::NotJson,
        HistoryFault::Version,
        HistoryFault::Shape { event: 7 },
        HistoryFault::TooMany,
        HistoryFault::NotWellFormed { event: 4095 },
        HistoryFault::Start { pair: 4095 },
    ];
    for fault in &faults {
        let line = history_fault_line(rt.alloc(), fault)?;
        let text = format!(in rt.alloc(); "history: {fault}\n")?;
        assert!(rt; line == text);
    }
    Ok(())
}
