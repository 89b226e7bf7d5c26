// What a version of the image lays down (01 "Image"; 02 Tickets 3, 4 and 7).
ghost use Rattle.std.specs.Prelude.{◌≡◌, ◌≤◌, ltb};
ghost use Rattle.image.specs.Layout.{longest_rule, forms_of, known_version, has_bodies};

// A version is the number that stands in a header, and each number is answered: no enum of the known ones.

// How many bytes a rule may have, from 34 of a record on; 0 where the version is not known.
#[tactic(auto, unfolding(crate::specs::Layout::longest_rule))]
pub fn longest_rule(v: u32) -> usize
    ensures { (result ≡ longest_rule v) × (result ≤ 30) }
{
    match v {
        1 => 16,
        2 => 30,
        3 => 28,
        _ => 0,
    }
}

// Whether it has a form of rules, numbered from 0. The form is told first: soundness asks this of every record, and a version told for
// each form is quicker there than a comparison of two numbers.
#[tactic(auto, unfolding(crate::specs::Layout::forms_of))]
pub fn has_form(v: u32, form: u8) -> bool
    ensures { result ≡ ltb form (forms_of v) }
{
    match form {
        2 => v == 3,
        1 => matches!(v, 2 | 3),
        0 => matches!(v, 1..=3),
        _ => false,
    }
}

#[tactic(auto, unfolding(crate::specs::Layout::known_version))]
pub fn is_known(v: u32) -> bool
    ensures { result ≡ known_version v }
{
    has_form(v, 0)
}

// Whether files have bodies.
#[tactic(auto, unfolding(crate::specs::Layout::has_bodies))]
pub fn has_bodies(v: u32) -> bool
    ensures { result ≡ has_bodies v }
{
    v == 3
}
