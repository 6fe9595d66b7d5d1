// Histories that tests share.
use events::{Call, Event, Reply};
use std::alloc::{AllocError, Global};

/// Two keys: the get comes before the insert that overlaps it.
pub(crate) const TWO_KEYS: &[u8] = br#"{"events":[
    {"invoke":["insert",1,10],"process":0}, {"invoke":["get",1],"process":1},
    {"invoke":["insert",9,90],"process":2}, {"answer":null,"process":2},
    {"answer":null,"process":1}, {"answer":null,"process":0}],"version":1}"#;

/// Three keys: a get that misses the insert that overlaps it, for which four configurations count;
/// a get that sees what nobody inserted; and an insert.
pub(crate) const THREE_KEYS: &[u8] = br#"{"events":[
    {"invoke":["insert",5,7],"process":0},
    {"invoke":["get",5],"process":1}, {"answer":null,"process":1},
    {"answer":null,"process":0},
    {"invoke":["get",9],"process":2}, {"answer":1,"process":2},
    {"invoke":["insert",12,3],"process":2}, {"answer":null,"process":2}],"version":1}"#;

/// The text of inserts of 1 at the keys below a count, each answered before the next: one segment
/// each.
pub(crate) fn inserts(alloc: Global, count: u64) -> Result<String, AllocError> {
    let mut text = String::from_str(alloc, "{\"events\":[")?;
    for key in 0..count {
        let comma = if key > 0 { "," } else { "" };
        text.push_str(&format!(in alloc;
            "{comma}{{\"invoke\":[\"insert\",{key},1],\"process\":0}},{{\"answer\":null,\"process\":0}}"
        )?)?;
    }
    text.push_str("],\"version\":1}")?;
    Ok(text)
}

/// This many gets of the key 5, each answered before the next. The one with this number is answered
/// by 9 and the others by nothing: one segment.
pub(crate) fn gets(alloc: Global, count: usize, wrong: usize) -> Result<Vec<Event>, AllocError> {
    let mut events = Vec::new(alloc);
    for number in 0..count {
        let reply = if number == wrong {
            Reply::Some(9)
        } else {
            Reply::None
        };
        events.push(Event::Invoke {
            process: 0,
            call: Call::Get(5),
        })?;
        events.push(Event::Answer { process: 0, reply })?;
    }
    Ok(events)
}
