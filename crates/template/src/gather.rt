// The objects of a template, gathered in 01's order and not yet judged (01 "CREATE": objects in this order,
// each once; lengths one byte, 00-7F).
ghost use Rattle.std.specs.Prelude.{◌≡◌, ◌<◌};
ghost use Rattle.template.specs.Objects.{object_at, taken_at, objects_of};

use crate::{Object, Objects, Span};

// The tags in 01's order, AB and 8B after 8C, in whose place one of them may stand (02 Tickets 3 and 7). The DF's list and the
// EF's are both in this order.
const ORDER: [u8; 12] = [
    0x82, 0x83, 0x84, 0x8A, 0x8C, 0xAB, 0x8B, 0x80, 0x81, 0xC6, 0x85, 0xA5,
];

// The data object at a place: a tag, a length byte 00-7F, and as many bytes. None where no whole one stands.
#[tactic(auto, unfolding(crate::specs::Objects::object_at))]
pub fn object_at(s: &[u8], at: usize) -> Option<Object>
    ensures { result ≡ object_at s.now at }
{
    let tag = *s.get(at)?;
    let length = *s.get(at + 1)?;
    if 127 < length {
        return None;
    }
    let start = at + 2;
    let end = start + usize::from(length);
    if s.len() < end {
        return None;
    }
    Some(Object {
        tag,
        value: Span { start, end },
    })
}

// The objects with the next one added, if it is number k of the list.
#[tactic(auto, unfolding(crate::specs::Objects::taken_at))]
fn take(s: &[u8], o: Objects, k: usize) -> Objects
    requires { k < 12 }
    ensures { result ≡ taken_at s.now o k }
{
    let Some(Object { tag, value }) = object_at(s, o.next) else {
        return o;
    };
    if tag != ORDER[k] {
        return o;
    }
    let mut more = o;
    more.values[k] = Some(value);
    more.next = value.end;
    more
}

// The objects after 62 LL, in 01's order, each at most once.
#[tactic(auto, unfolding(crate::specs::Objects::taken_below, crate::specs::Objects::objects_of))]
pub fn all(s: &[u8]) -> Objects
    ensures { result ≡ objects_of s.now }
{
    let mut o = Objects {
        values: [None; 12],
        next: 2,
    };
    for k in 0..12 {
        o = take(s, o, k);
    }
    o
}
