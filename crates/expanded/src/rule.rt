// Groups of a rule: which are well formed, and what they decide together (02 Ticket 3; house: of several SC_DOs in a row, one
// suffices).
ghost use Rattle.std.specs.Prelude.{◌≡◌, true, false, ◌<◌, ◌+◌, length};
ghost use Rattle.expanded.specs.Object.{object, objects_of, Stands};
ghost use Rattle.expanded.specs.Expanded.{is_am, am_after, in_place, expanded_formed, bit_of, opens, opens_one, expanded_grants};

use crate::condition;
use crate::object::{self, Objects};
use rules::{Right, Sets};

// How deep templates may nest.
const DEEP: usize = 4;

// Whether an object is an AM_DO: 80 01 and an AM byte, b8 clear.
#[tactic(auto, unfolding(crate::specs::Expanded::is_am))]
fn is_am(tag: u8, value: &[u8]) -> bool
    ensures { result ≡ is_am (object tag value.now) }
{
    tag == 0x80 && value.len() == 1 && value[0] < 128
}

// Whether an object may stand where it does; `due` says that an SC_DO must come. Only a template costs the call that goes down:
// each command judges the rules of all records.
fn is_in_place(tag: u8, value: &[u8], due: bool) -> bool
    ensures { result ≡ in_place due (object tag value.now) }
{
    if is_am(tag, value) {
        return !due;
    }
    if !condition::is_template(tag) {
        return condition::is_formed_plain(tag, value);
    }
    condition::is_formed(tag, value, DEEP)
}

// Whether a group begins at `at`: an AM_DO, where no SC_DO is due.
fn begins_at(rule: &[u8], at: usize, due: bool) -> bool
    requires { at < length rule.now }
    ensures { result ≡ true → (due ≡ false) × Stands is_am rule.now at (at + 3) }
{
    if rule[at] != 0x80 {
        return false;
    }
    if due {
        return false;
    }
    if !object::has(rule, at, 1) {
        return false;
    }
    rule[at + 2] < 128
}

// Whether a rule is groups of an AM_DO and one or more SC_DOs, and nothing else. What is no template is passed by a constant, and not by
// `Objects`, so that the next object does not wait for the length of this one; all else, and what is malformed, goes the general way.
pub fn well_formed(rule: &[u8]) -> bool
    ensures { result ≡ expanded_formed rule.now }
{
    if rule.len() < 1 {
        return false;
    }
    if rule[0] != 0x80 {
        return false;
    }
    let mut due = false;
    let mut at: usize = 0;
    while at < rule.len() {
        if begins_at(rule, at, due) {
            due = true;
            at += 3;
            continue;
        }
        if condition::is_byte_at(rule, at) {
            due = false;
            at += 3;
            continue;
        }
        if condition::is_constant_at(rule, at) {
            due = false;
            at += 2;
            continue;
        }
        let to = object::end(rule, at);
        if to - at < 2 {
            return false;
        }
        if !is_in_place(rule[at], &rule[at + 2..to], due) {
            return false;
        }
        due = is_am(rule[at], &rule[at + 2..to]);
        at = to;
    }
    !due
}

// The bit of a right in an AM byte: b7 for slot 0.
fn bit_of(right: Right) -> u8
    ensures { (result ≡ bit_of right) × (0 < result) }
{
    64 >> right.slot()
}

// The AM byte that counts after an object: that of the last AM_DO.
#[tactic(auto, unfolding(crate::specs::Expanded::am_after, crate::specs::Expanded::is_am))]
fn am_after(am: u8, tag: u8, value: &[u8]) -> u8
    ensures { result ≡ am_after am (object tag value.now) }
{
    match value {
        [own] if is_am(tag, value) => *own,
        _ => am,
    }
}

// Whether the AM byte has the bit, and the object is a condition that holds.
#[tactic(auto, unfolding(crate::specs::Expanded::opens))]
fn does_open(bit: u8, sets: Sets, am: u8, tag: u8, value: &[u8]) -> bool
    requires { 0 < bit }
    ensures { result ≡ opens bit sets am (object tag value.now) }
{
    am / bit % 2 == 1 && condition::does_hold(tag, value, DEEP, sets)
}

// Whether one of the objects opens what the bit stands for. Groups are alternatives, and so are the SC_DOs of one.
fn opens_one(rule: &[u8], bit: u8, sets: Sets) -> bool
    requires { 0 < bit }
    ensures { result ≡ opens_one bit sets 0 (objects_of rule.now) }
{
    let mut am: u8 = 0;
    for o in Objects(rule) {
        let Some((tag, value)) = o else {
            continue;
        };
        if does_open(bit, sets, am, tag, value) {
            return true;
        }
        am = am_after(am, tag, value);
    }
    false
}

// What the rule decides on a right, under what has been authenticated; a malformed rule grants nothing.
#[tactic(auto, unfolding(crate::specs::Expanded::expanded_grants))]
pub fn granted(rule: &[u8], right: Right, sets: Sets) -> bool
    ensures { result ≡ expanded_grants rule.now right sets }
{
    well_formed(rule) && opens_one(rule, bit_of(right), sets)
}
