// Access rules of every form (01 "Descriptor and rules", 02 Tickets 3, 6 and 7): the one place where a rule is asked, what a refusal
// lacks, and whether a rule may stand in a record. A rule comes with the number of its form; whoever asks never looks inside.
#![tactic(auto)]

ghost use Rattle.std.specs.Prelude.{◌≡◌, ◌&&◌, ◌≤◌, eqb, length};
ghost use Rattle.rules.specs.Group.{Lengths};
ghost use Rattle.access.specs.Access.{referred, tag_of, asked_as, referred_formed, well_formed, fits_record, granted_of};
ghost use Rattle.access.specs.Decision.{full, decision_of, Decides, either};

use rules::{Right, Sets};

// What a rule decides on a right (02 Ticket 6): it grants it; or some security state would open it, and this one does not; or none would.
// The order is that of 02's numbers: what is more open comes first.
#[derive(Clone, Copy, PartialEq, Eq, PartialOrd, Ord)]
pub enum Decision {
    Granted,
    Lacking,
    Closed,
}

// The forms: the value of tag 8C, of tag AB, of tag 8B. No enum: a form is a byte of a record or of a caller, and each byte is answered.
pub const COMPACT: u8 = 0;

pub const EXPANDED: u8 = 1;

pub const REFERRED: u8 = 2;

// The tag of the object that a rule stands in.
pub fn tag_of(form: u8) -> u8
    ensures { result ≡ tag_of form }
{
    match form {
        COMPACT => 0x8C,
        EXPANDED => 0xAB,
        _ => 0x8B,
    }
}

// The form in which the rule that decides is asked: the rule that a referred one names is expanded.
#[tactic(auto, unfolding(crate::specs::Access::asked_as))]
pub fn asked_as(form: u8) -> u8
    ensures { result ≡ asked_as form }
{
    if form == REFERRED { EXPANDED } else { form }
}

// Whether a rule is a referred one and well formed: an identifier and a record number.
fn is_reference(form: u8, rule: &[u8]) -> bool
    ensures { result ≡ (eqb form referred && referred_formed rule.now) }
{
    rule.len() == 3 && form == REFERRED
}

// Whether a rule is well formed. Not by `formed_by`: who asks but once would make the table for one rule.
#[tactic(auto, unfolding(crate::specs::Access::well_formed))]
fn well_formed(form: u8, rule: &[u8]) -> bool
    ensures { result ≡ well_formed form rule.now }
{
    match form {
        COMPACT => rules::rule::well_formed(rule),
        EXPANDED => expanded::rule::well_formed(rule),
        _ => is_reference(form, rule),
    }
}

// Whether a rule may stand in a record of a version.
pub fn fits_record(v: u32, form: u8, rule: &[u8]) -> bool
    ensures { result ≡ fits_record v form rule.now }
{
    if rule.len() < 1 {
        return false;
    }
    if image::version::longest_rule(v) < rule.len() {
        return false;
    }
    if !image::version::has_form(v, form) {
        return false;
    }
    well_formed(form, rule)
}

// Whether a rule is well formed, with the table of a compact group's lengths, for a caller that asks often: a compact rule, which most
// are, is told by one comparison, since the next test is not about the form alone.
pub fn formed_by(form: u8, rule: &[u8], lengths: &[u8; 256]) -> bool
    requires { (1 ≤ length rule.now) × Lengths lengths.now }
    ensures { result ≡ well_formed form rule.now }
{
    if form == COMPACT {
        return rules::rule::formed_by(rule, lengths);
    }
    if is_reference(form, rule) {
        return true;
    }
    if form == EXPANDED {
        return expanded::rule::well_formed(rule);
    }
    false
}

// Whether the rule grants a right, under what has been authenticated. The only way anyone asks a rule; a referred one is never asked
// itself, but the rule that it names.
#[tactic(auto, unfolding(crate::specs::Access::granted_of))]
pub fn granted(form: u8, rule: &[u8], right: Right, sets: Sets) -> bool
    ensures { result ≡ granted_of form rule.now right sets }
{
    match form {
        COMPACT => rules::rule::granted(rule, right, sets),
        EXPANDED => expanded::rule::granted(rule, right, sets),
        _ => false,
    }
}

// All that could be authenticated.
fn everything() -> Sets
    ensures { result ≡ full }
{
    Sets {
        messaging: 0xFFFF,
        external: 0xFFFF,
        user: 0xFFFF,
    }
}

// What the rule decides on a right: more authentication never closes it, so where nothing is lacking and it is denied, no state opens it.
pub fn decide(form: u8, rule: &[u8], right: Right, sets: Sets) -> Decision
    ensures { (result ≡ decision_of form rule.now right sets) × Decides form rule.now right sets result }
{
    if granted(form, rule, right, sets) {
        return Decision::Granted;
    }
    if granted(form, rule, right, everything()) {
        return Decision::Lacking;
    }
    Decision::Closed
}

// What two rules decide of which one suffices: lacking wins over closed.
pub fn either(one: Decision, other: Decision) -> Decision
    ensures { result ≡ either one other }
{
    one.min(other)
}
