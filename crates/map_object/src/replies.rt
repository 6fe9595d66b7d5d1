// Replies of the map, made and compared.
ghost use Rattle.std.specs.Prelude.{◌≡◌, ◌↔◌, IsTrue};
ghost use Rattle.map_object.specs.MapObject.{value_reply};
ghost use Rattle.events.specs.declared.event.Reply.TheVariants as replies;

use events::Reply;

/// Returns a value, or none, as a reply.
pub fn value_reply(value: Option<u64>) -> Reply
    ensures { result ≡ value_reply value }
{
    match value {
        None => Reply::None,
        Some(value) => Reply::Some(value),
    }
}

/// Returns whether a reply is this value, or none if there is no value.
pub fn is_value(reply: &Reply, value: Option<u64>) -> bool
    ensures { IsTrue result ↔ (reply.now ≡ value_reply value) }
{
    match reply {
        Reply::None => value.is_none(),
        Reply::Some(found) => value == Some(*found),
        Reply::Pairs(_) | Reply::Refused | Reply::Done | Reply::Found | Reply::Other => false,
    }
}

/// Returns whether a reply lists exactly these pairs.
pub fn is_list(reply: &Reply, pairs: &[(u64, u64)]) -> bool
    ensures { IsTrue result ↔ (reply.now ≡ replies.Pairs pairs.now) }
{
    match reply {
        Reply::Pairs(listed) => listed.as_slice() == pairs,
        Reply::None | Reply::Some(_) | Reply::Refused | Reply::Done | Reply::Found | Reply::Other =>
            false,
    }
}
