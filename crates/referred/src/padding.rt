// The rule in a record of a rule file (02 Ticket 7): an expanded rule, FF bytes after it being padding.
// `row` is the record: that word is taken.
ghost use Rattle.std.specs.Prelude.{◌≡◌, ◌≤◌, length};
ghost use Rattle.referred.specs.Padding.{is_padding, OnlyEnd, unpadded_end};

use expanded::{object, rule};

const FILL: u8 = 0xFF;

// Only FF bytes.
fn is_padding(s: &[u8]) -> bool
    ensures { result ≡ is_padding s.now }
{
    s.iter().all(|b| *b == FILL)
}

// The only place where the rule can end: from object to object, up to an FF where a tag should stand.
fn last_place(row: &[u8]) -> usize
    ensures { OnlyEnd row.now result }
{
    // No range: each object says where the next begins.
    let mut at = 0;
    while at < row.len() {
        if row[at] == FILL {
            return at;
        }
        let to = object::end(row, at);
        if to - at < 2 {
            return at;
        }
        at = to;
    }
    at
}

// Where the rule ends, 0 where the record has none: the number of `unpadded_end`, and no rule has 0 bytes.
pub fn unpadded_end(row: &[u8]) -> usize
    ensures { (result ≡ unpadded_end row.now) × (result ≤ length row.now) }
{
    let at = last_place(row);
    if !rule::well_formed(&row[..at]) {
        return 0;
    }
    if !is_padding(&row[at..]) {
        return 0;
    }
    at
}
