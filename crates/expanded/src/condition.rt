// Conditions of an expanded rule: SC_DOs, which nest (02 Ticket 3). A function here takes the tag of an object and its value;
// `left` is how many templates may still stand inside one another, and falls.
ghost use Rattle.std.specs.Prelude.{◌≡◌, true, ◌<◌, ◌+◌, length, []};
ghost use Rattle.expanded.specs.Object.{object, objects_of, every, some, Stands};
ghost use Rattle.expanded.specs.Condition.{formed_plain, is_template, formed, sc_of, holds_plain, holds};

use crate::object::{self, Objects};
use rules::Sets;

// The tags of conditions. No enum: a tag is a byte of a rule, and each byte is answered.
const ALWAYS: u8 = 0x90;

const NEVER: u8 = 0x97;

const BYTE: u8 = 0x9E;

const ONE_OF: u8 = 0xA0;

const ALL_OF: u8 = 0xAF;

// Whether a condition that is no template is well formed.
#[tactic(auto, unfolding(crate::specs::Condition::formed_plain))]
pub fn is_formed_plain(tag: u8, value: &[u8]) -> bool
    ensures { result ≡ formed_plain tag value.now }
{
    match tag {
        ALWAYS | NEVER => value.is_empty(),
        BYTE => value.len() == 1,
        _ => false,
    }
}

// Whether a tag is that of always or of never, which hold nothing.
#[tactic(auto, unfolding(crate::specs::Condition::formed_plain))]
fn is_constant(tag: u8) -> bool
    ensures { result ≡ formed_plain tag [] }
{
    matches!(tag, ALWAYS | NEVER)
}

// Whether a 9E with its SC byte stands at `at`.
pub fn is_byte_at(s: &[u8], at: usize) -> bool
    requires { at < length s.now }
    ensures { result ≡ true → Stands (formed 0) s.now at (at + 3) }
{
    if s[at] != BYTE {
        return false;
    }
    object::has(s, at, 1)
}

// Whether a 90 or a 97, with nothing in it, stands at `at`.
pub fn is_constant_at(s: &[u8], at: usize) -> bool
    requires { at < length s.now }
    ensures { result ≡ true → Stands (formed 0) s.now at (at + 2) }
{
    if !is_constant(s[at]) {
        return false;
    }
    object::has(s, at, 0)
}

// Whether conditions stand in the value.
#[tactic(auto, unfolding(crate::specs::Condition::is_template))]
pub fn is_template(tag: u8) -> bool
    ensures { result ≡ is_template tag }
{
    matches!(tag, ONE_OF | ALL_OF)
}

// Whether a condition is well formed, nested at most `left` deep.
#[cycle(are_formed_is_formed)]
pub fn is_formed(tag: u8, value: &[u8], left: usize) -> bool
    ensures { result ≡ formed left (object tag value.now) }
{
    if left == 0 {
        return is_formed_plain(tag, value);
    }
    if !is_template(tag) {
        return is_formed_plain(tag, value);
    }
    if !object::has_several(value) {
        return false;
    }
    are_formed(value, left - 1)
}

// Whether each object of a row is such a condition. What is no template is passed by a constant, and not by `Objects`, so that the next
// object does not wait for the length of this one: soundness asks this. All else, and what is malformed, goes the general way.
#[cycle(are_formed_is_formed)]
fn are_formed(s: &[u8], left: usize) -> bool
    ensures { result ≡ every (formed left) (objects_of s.now) }
{
    let mut at: usize = 0;
    while at < s.len() {
        if is_byte_at(s, at) {
            at += 3;
            continue;
        }
        if is_constant_at(s, at) {
            at += 2;
            continue;
        }
        let to = object::end(s, at);
        if to - at < 2 {
            return false;
        }
        if !is_formed(s[at], &s[at + 2..to], left) {
            return false;
        }
        at = to;
    }
    true
}

// The SC byte of a 9E; FF, never, where there is none.
#[tactic(auto, unfolding(crate::specs::Condition::sc_of))]
fn sc_of(value: &[u8]) -> u8
    ensures { result ≡ sc_of value.now }
{
    match value {
        [sc] => *sc,
        _ => 0xFF,
    }
}

// Whether a condition that is no template holds.
#[tactic(auto, unfolding(crate::specs::Condition::holds_plain))]
fn does_hold_plain(tag: u8, value: &[u8], sets: Sets) -> bool
    ensures { result ≡ holds_plain sets tag value.now }
{
    match tag {
        ALWAYS => true,
        BYTE => rules::condition::holds(sc_of(value), sets),
        _ => false,
    }
}

// Whether a condition holds, nested at most `left` deep.
#[cycle(do_all_does_hold_does_one)]
pub fn does_hold(tag: u8, value: &[u8], left: usize, sets: Sets) -> bool
    ensures { result ≡ holds left sets (object tag value.now) }
{
    if left == 0 {
        return does_hold_plain(tag, value, sets);
    }
    if tag == ONE_OF {
        return does_one(value, left - 1, sets);
    }
    if tag == ALL_OF {
        return do_all(value, left - 1, sets);
    }
    does_hold_plain(tag, value, sets)
}

// Whether one of the conditions in a row holds.
#[cycle(do_all_does_hold_does_one)]
fn does_one(s: &[u8], left: usize, sets: Sets) -> bool
    ensures { result ≡ some (holds left sets) (objects_of s.now) }
{
    for o in Objects(s) {
        let Some((tag, value)) = o else {
            continue;
        };
        if does_hold(tag, value, left, sets) {
            return true;
        }
    }
    false
}

// Whether all of the conditions in a row hold.
#[cycle(do_all_does_hold_does_one)]
fn do_all(s: &[u8], left: usize, sets: Sets) -> bool
    ensures { result ≡ every (holds left sets) (objects_of s.now) }
{
    for o in Objects(s) {
        let Some((tag, value)) = o else {
            return false;
        };
        if !does_hold(tag, value, left, sets) {
            return false;
        }
    }
    true
}
