// The rule that decides on a file (02 Ticket 7): where it stands, and the rule as a part of the image or of the pool. Nothing is kept: each
// command reads the rule file as it is at that moment.
ghost use Rattle.std.specs.Prelude.{◌≡◌, ◌<◌, ◌≤◌, get_or, Some};
ghost use Rattle.laws.specs.Lists.{part};
ghost use Rattle.image.specs.Layout.{Within, rec_at};
ghost use Rattle.kinship.specs.Climb.{Rooted, Stands};
ghost use Rattle.referred.specs.Deciding.{named_file_of, named_record_of, is_linear, record_start, held_place, referred_place};
ghost use Rattle.referred.specs.Deciding.{own_place, place_of, Bounded, deciding_rule};

use crate::{Place, nearest, padding};
use image::fields;
use pool::records;
use rules::descriptor;

// The identifier of the file that the rule of slot s names.
fn named_file(image: &[u8], s: usize) -> u16
    requires { Within image.now s }
    ensures { result ≡ named_file_of (rec_at image.now s) }
{
    numbers::u16_at(image, 16 + 64 * s + 34)
}

// The number of the record that it names.
fn named_record(image: &[u8], s: usize) -> usize
    requires { Within image.now s }
    ensures { (result ≡ named_record_of (rec_at image.now s)) × (result < 256) }
{
    numbers::wide(image[16 + 64 * s + 36]) as usize
}

// Whether the file in slot t is a linear fixed EF; its life cycle is not regarded.
fn is_linear(image: &[u8], t: usize) -> bool
    requires { Within image.now t }
    ensures { result ≡ is_linear (rec_at image.now t) }
{
    if fields::kind(image, t) != descriptor::EF {
        return false;
    }
    fields::descriptor(image, t) % 8 == 2
}

// Where record k of the file in slot t begins in the pool.
fn record_start(image: &[u8], t: usize, k: usize) -> usize
    requires { Within image.now t × ((1 ≤ k) × (k < 256)) }
    ensures { (result ≡ record_start image.now t k) × (result < 33554432) }
{
    let length = fields::record_length(image, t) as usize;
    fields::start(image, t) + (k - 1) * length
}

// So many bytes of the pool from a place on, as far as it goes: nothing here rests on the pool's length.
fn stretch(pool: &[u8], from: usize, count: usize) -> &[u8]
    requires { (from < 33554432) × (count < 65536) }
    ensures { result.now ≡ part pool.now from count }
{
    if pool.len() <= from {
        return &pool[..0];
    }
    if pool.len() - from < count {
        return &pool[from..];
    }
    let to = from + count;
    &pool[from..to]
}

// Where the rule in record k of the file in slot t stands; None is nowhere, here and below.
fn held(image: &[u8], pool: &[u8], t: usize, k: usize) -> Option<Place>
    requires { Within image.now t × (k < 256) }
    ensures { (result ≡ held_place image.now pool.now t k) × Bounded result }
{
    if !is_linear(image, t) {
        return None;
    }
    if !records::has_record(image, t, k) {
        return None;
    }
    let from = record_start(image, t, k);
    let length = fields::record_length(image, t) as usize;
    let end = padding::unpadded_end(stretch(pool, from, length));
    if end == 0 {
        return None;
    }
    Some(Place::InPool {
        from,
        to: from + end,
    })
}

// Where the rule stands that slot s names: the file is looked for in the directory that holds the ruled file, then in each above.
fn referred(image: &[u8], pool: &[u8], n: usize, s: usize) -> Option<Place>
    requires rooted { Rooted image.now n }
    requires stands { Stands image.now n s }
    ensures { (result ≡ referred_place n image.now pool.now s) × Bounded result }
{
    let up = fields::parent(image, s);
    let x = named_file(image, s);
    let found = nearest::nearest(image, n, up, x);
    let Some(t) = found else {
        return None;
    };
    if t == s {
        return None;
    }
    held(image, pool, t, named_record(image, s))
}

// Where the rule of slot s stands in its own record.
fn own(image: &[u8], s: usize) -> Place
    requires { Within image.now s }
    ensures { (result ≡ own_place image.now s) × Bounded (Some result) }
{
    let from = 16 + 64 * s + 34;
    let length = numbers::wide(image[16 + 64 * s + 33]) as usize;
    Place::InImage {
        from,
        to: from + length,
    }
}

// Where the rule that decides on slot s stands.
pub fn place(image: &[u8], pool: &[u8], n: usize, s: usize) -> Option<Place>
    requires rooted { Rooted image.now n }
    requires stands { Stands image.now n s }
    ensures { (result ≡ place_of n image.now pool.now s) × Bounded result }
{
    if fields::form(image, s) == access::REFERRED {
        return referred(image, pool, n, s);
    }
    Some(own(image, s))
}

// The rule that decides on slot s, as a part of the image or of the pool; empty where the search denies.
pub fn deciding<'a>(image: &'a [u8], pool: &'a [u8], n: usize, s: usize) -> &'a [u8]
    requires rooted { Rooted image.now n }
    requires stands { Stands image.now n s × (get_or (rec_at image.now s) 33 0 ≤ 30) }
    ensures { result.now ≡ deciding_rule n image.now pool.now s }
{
    match place(image, pool, n, s) {
        None => &pool[..0],
        Some(Place::InImage { from, to }) => &image[from..to],
        Some(Place::InPool { from, to }) => &pool[from..to],
    }
}
