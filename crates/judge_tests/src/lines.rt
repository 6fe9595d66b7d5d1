// Sources that are cut at their line feeds, wherever a read ends or fails; lines from which events
// are read; and a history.
ghost use Rattle.std.specs.Prelude.{◌≡◌, ◌<◌};

use cli_io::memory_ends::MemorySource;
use history_text::{TextVersion, call_value, read_history, reply_value, write_history};
use std::alloc::Global;
use std::test::Fail;
use stream_text::{LineBuffer, NoLine, StreamEvent, next_line, read_event_line};

/// The lines of a text with a bar after each, and how many calls failed. At most this many bytes
/// come at once, and a read may fail.
fn read_all(
    alloc: Global,
    text: &str,
    most: usize,
    fails_in: Option<u64>,
) -> Result<(Vec<u8>, u64), Fail>
    requires { 0 < most }
{
    let mut source = MemorySource::new(text.as_bytes().to_vec(alloc)?, most, fails_in);
    let mut buffer = LineBuffer::new(alloc)?;
    let mut lines = Vec::new(alloc);
    let failed = put_lines(&mut buffer, &mut source, &mut lines)?;
    Ok((lines, failed))
}

/// Adds all lines that a source has, with a bar after each, and counts the calls that failed.
fn put_lines(
    buffer: &mut LineBuffer,
    source: &mut MemorySource,
    lines: &mut Vec<u8>,
) -> Result<u64, Fail>
    requires { source.old.failures ≡ 0 }
{
    let mut failed = 0;
    for _turn in 0..100u64 {
        match next_line(buffer, source) {
            Ok(true) => {
                lines.extend_from_slice(buffer.line())?;
                lines.push(b'|')?;
            }
            Ok(false) => return Ok(failed),
            Err(NoLine::Failed) => failed += 1,
            Err(NoLine::TooLong) => return Err(Fail::new("a line is too long")),
        }
    }
    Err(Fail::new("there is no end"))
}

/// A text, how many bytes come at once, the read that fails, the lines, and how many reads failed.
type Case<'a> = (&'a str, usize, Option<u64>, &'a str, u64);

const FOUR: &str = "first\nsecond\nthird\nfourth";

const FOUR_LINES: &str = "first|second|third|fourth|";

// Three bytes at a time, the four lines take nine reads. The tenth finds the end of the last line,
// and the eleventh finds that there is no other line.
static CASES: [Case<'static>; 16] = [
    ("", 1, None, "", 0),
    ("", 1, Some(0), "", 1),
    ("\n", 1, None, "|", 0),
    ("a", 1, Some(1), "a|", 1),
    ("a\n", 2, None, "a|", 0),
    ("a\nbc", 2, None, "a|bc|", 0),
    ("\n\n", 5, None, "||", 0),
    ("\na\n\nbcd\n", 3, Some(2), "|a||bcd|", 1),
    ("a\r\nb\r", 100, None, "a\r|b\r|", 0),
    (FOUR, 1, None, FOUR_LINES, 0),
    (FOUR, 3, Some(0), FOUR_LINES, 1),
    (FOUR, 3, Some(4), FOUR_LINES, 1),
    (FOUR, 3, Some(8), FOUR_LINES, 1),
    (FOUR, 3, Some(9), FOUR_LINES, 1),
    (FOUR, 3, Some(10), FOUR_LINES, 1),
    (FOUR, 3, Some(11), FOUR_LINES, 0),
];

#[test]
fn lines_come_wherever_a_read_ends_or_fails(rt: HostRuntime) -> Result<(), Fail> {
    for (text, most, fails_in, want, failures) in &CASES {
        let (lines, failed) = read_all(rt.alloc(), text, (*most).max(1), *fails_in)?;
        assert!(rt;
            lines.as_slice() == want.as_bytes(),
            "{want}, {most} at a time"
        );
        assert_eq!(rt; failed, *failures, "{want}, {most} at a time");
    }
    Ok(())
}

/// Lines of each call and each reply, the process of each, and the call or the reply.
static EVENTS: [(&'static str, u16, &'static str); 12] = [
    (r#"{"invoke":["get",5],"process":64}"#, 64, r#"["get",5]"#),
    (
        r#"{"invoke":["insert",5,1],"process":0}"#,
        0,
        r#"["insert",5,1]"#,
    ),
    (
        r#"{"invoke":["remove",0],"process":65535}"#,
        65535,
        r#"["remove",0]"#,
    ),
    (
        r#"{"process":2,"invoke":["scan",0,18446744073709551615]}"#,
        2,
        r#"["scan",0,18446744073709551615]"#,
    ),
    (
        r#"{"invoke":["replace",1,2,3],"process":0}"#,
        0,
        r#"["replace",1,2,3]"#,
    ),
    (r#"{"answer":null,"process":64}"#, 64, "null"),
    (
        r#"{"answer":18446744073709551615,"process":3}"#,
        3,
        "18446744073709551615",
    ),
    (
        r#"{ "process": 3, "answer": [[3, 4], [1, 2]] }"#,
        3,
        "[[3,4],[1,2]]",
    ),
    (r#"{"answer":"refused","process":3}"#, 3, r#""refused""#),
    (r#"{"answer":"done","process":3}"#, 3, r#""done""#),
    (r#"{"answer":"found","process":3}"#, 3, r#""found""#),
    (r#"{"answer":"other","process":3}"#, 3, r#""other""#),
];

/// The process of an event, and its call or its reply in its written form.
fn process_and_words(alloc: Global, event: &StreamEvent) -> Result<(u16, String), Fail> {
    Ok(match event {
        StreamEvent::Invoke { process, call } => (
            *process,
            call_value(alloc, call)?.to_string(alloc)?,
        ),
        StreamEvent::Answer { process, reply } => (
            *process,
            reply_value(alloc, reply)?.to_string(alloc)?,
        ),
    })
}

#[test]
fn events_are_read_from_lines(rt: HostRuntime) -> Result<(), Fail> {
    for (line, process, done) in &EVENTS {
        let event = read_event_line(rt.alloc(), TextVersion::Three, line.as_bytes())?;
        let (by, text) = process_and_words(rt.alloc(), &event)?;
        assert_eq!(rt; by, *process, "{line}");
        assert!(rt; text.as_str() == *done, "{line}");
    }
    Ok(())
}

/// A text with notes, and the text that is written of its history.
const NOTED: &str =
    r#"{"version":3,"start":[],"events":[{"note":{"line":[7,null]},"process":0,"invoke":["insert",5,7]},
    {"process":0,"answer":"done","note":"12:00"},{"process":0,"invoke":["get",5],"note":1.5}]}"#;

const NOTHING_NOTED: &str =
    r#"{"events":[{"invoke":["insert",5,7],"process":0},{"answer":"done","process":0},{"invoke":["get",5],"process":0}],"start":[],"version":3}"#;

#[test]
fn a_history_is_written_without_its_notes(rt: HostRuntime) -> Result<(), Fail> {
    let history = read_history(rt.alloc(), NOTED.as_bytes())?;
    assert!(rt; write_history(rt.alloc(), &history)?.as_str() == NOTHING_NOTED);
    Ok(())
}
