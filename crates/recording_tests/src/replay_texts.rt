// Replays that are read and written: the program writes only numbers of turns.
use plan_text::{read_replay, write_replay};
use std::process::Abort;
use std::test::Fail;

/// Texts in the compact form: of each version, each variant, each kind of item and each point.
static TEXTS: [&str; 6] = [
    r#"{"limit":1,"rows":[0,0,0,1],"schedule":[],"scripts":[[]],"variant":"coupled","version":1}"#,
    r#"{"limit":1000000,"rows":[8,7,6,5],"schedule":[[0,"end"],[1,"turns",1000000],[18446744073709551615,"turns",1]],"scripts":[[["insert",5,50],["remove",4294967295]],[["get",5],["scan",0,4294967295]]],"variant":"optimistic","version":1}"#,
    r#"{"limit":9,"rows":[0,0,0,1],"schedule":[[0,"until","child"],[0,"until","check"],[0,"until","lock-root"]],"scripts":[[]],"variant":"read-unchecked","version":1}"#,
    r#"{"limit":9,"rows":[0,0,0,1],"schedule":[[0,"until","lock-row"],[0,"until","unlock"],[0,"until","answer"]],"scripts":[[]],"variant":"scan-unvalidated","version":1}"#,
    r#"{"limit":9,"rows":[0,0,0,1],"schedule":[],"scripts":[[["replace",5,1,2]]],"start":[],"variant":"lock-unchecked","version":2}"#,
    r#"{"limit":9,"rows":[0,0,0,1],"schedule":[],"scripts":[[["get",5]]],"start":[[5,7],[6,8]],"variant":"early-release","version":2}"#,
];

#[test]
fn replays_are_written_as_they_are_read(rt: HostRuntime) -> Result<(), Fail> {
    let alloc = rt.alloc();
    for text in &TEXTS {
        let replay = read_replay(alloc, text.as_bytes())?;
        assert!(rt; write_replay(alloc, &replay)?.as_str() == *text);
    }
    Ok(())
}
