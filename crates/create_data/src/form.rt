// Which objects a DF's and an EF's template must have, and how long (01 "CREATE", the two lists). An object
// goes by its number in the list of tags. The name (84) and the rule (8C, AB or 8B) are left to their readers.
// The number is no enum: it is the index into `ORDER` and `Objects::values`, so every use would cast it back.
ghost use Rattle.std.specs.Prelude.{◌≡◌, ◌<◌};
ghost use Rattle.template.specs.Objects.{place_in, length_in};
ghost use Rattle.create_data.specs.Form.{lacks, has, one_private, one_rule, rule_in, form_in, df_form, first_form, ef_form};

use rules::descriptor;
use template::{Objects, Span};

// Whether object k is not there.
#[tactic(auto, unfolding(crate::specs::Form::lacks))]
pub fn is_absent(o: Objects, k: usize) -> bool
    requires { k < 12 }
    ensures { result ≡ lacks o k }
{
    o.values[k].is_none()
}

// Where the value of object k stands; from 0 to 0 where it is not there. By reference: of a copy, k is looked up by memcpy.
pub fn place(o: &Objects, k: usize) -> Span
    requires { k < 12 }
    ensures { result ≡ place_in o.now k }
{
    o.values[k].unwrap_or(Span { start: 0, end: 0 })
}

// How many bytes object k has; 0 where it is not there.
fn length(o: Objects, k: usize) -> usize
    requires { k < 12 }
    ensures { result ≡ length_in o k }
{
    let Span { start, end } = place(&o, k);
    end.saturating_sub(start)
}

// Whether object k has low to high bytes.
#[tactic(auto, unfolding(crate::specs::Form::has))]
fn is_there(o: Objects, k: usize, low: usize, high: usize) -> bool
    requires { k < 12 }
    ensures { result ≡ has o k low high }
{
    let n = length(o, k);
    low <= n && n <= high
}

// Whether 85 and A5 are not both there.
#[tactic(auto, unfolding(crate::specs::Form::one_private))]
fn has_one_private(o: Objects) -> bool
    ensures { result ≡ one_private o }
{
    is_absent(o, 10) || is_absent(o, 11)
}

// Whether no two of 8C, AB and 8B are there.
#[tactic(auto, unfolding(crate::specs::Form::one_rule))]
pub fn has_one_rule(o: Objects) -> bool
    ensures { result ≡ one_rule o }
{
    if is_absent(o, 4) {
        is_absent(o, 5) || is_absent(o, 6)
    } else {
        is_absent(o, 5) && is_absent(o, 6)
    }
}

// The number of the object that has the rule: 8C, else AB, else 8B.
#[tactic(auto, unfolding(crate::specs::Form::rule_in))]
pub fn rule_in(o: Objects) -> usize
    ensures { (result ≡ rule_in o) × (result < 12) }
{
    if !is_absent(o, 4) {
        4
    } else if !is_absent(o, 5) {
        5
    } else {
        6
    }
}

// The form of the rule, by the object that has it.
#[tactic(auto, unfolding(crate::specs::Form::form_in))]
pub fn form_in(o: Objects) -> u8
    ensures { result ≡ form_in o }
{
    if !is_absent(o, 4) {
        access::COMPACT
    } else if !is_absent(o, 5) {
        access::EXPANDED
    } else {
        access::REFERRED
    }
}

// A DF's list: 82 (2), 83 (2), 8A (1), 81 (2-4), C6 (at least 1), 85 or A5 optional; no 80.
#[tactic(auto, unfolding(crate::specs::Form::df_form))]
pub fn is_df(o: Objects) -> bool
    ensures { result ≡ df_form o }
{
    is_there(o, 0, 2, 2)
        && is_there(o, 1, 2, 2)
        && is_there(o, 3, 1, 1)
        && is_there(o, 8, 2, 4)
        && is_there(o, 9, 1, 127)
        && has_one_private(o)
        && is_absent(o, 7)
}

// Whether 82 has four bytes where the structure has records, else two.
#[tactic(auto, unfolding(crate::specs::Form::first_form))]
fn is_first_good(o: Objects, descriptor: u8) -> bool
    ensures { result ≡ first_form o descriptor }
{
    let long = if descriptor::has_records(descriptor) {
        4
    } else {
        2
    };
    is_there(o, 0, long, long)
}

// An EF's list: 82 (2 or 4), 83 (2), 8A (1), 80 (2-4), 85 or A5 optional; no 84, 81 and C6.
#[tactic(auto, unfolding(crate::specs::Form::ef_form))]
pub fn is_ef(o: Objects, descriptor: u8) -> bool
    ensures { result ≡ ef_form o descriptor }
{
    is_first_good(o, descriptor)
        && is_there(o, 1, 2, 2)
        && is_there(o, 3, 1, 1)
        && is_there(o, 7, 2, 4)
        && has_one_private(o)
        && is_absent(o, 2)
        && is_absent(o, 8)
        && is_absent(o, 9)
}
