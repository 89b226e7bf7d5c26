// Searches over all records: a child by its identifier, a DF by its identifier, the lowest free slot (01
// "SELECT", "CREATE", "DELETE"). Most records that a search by identifier meets are foreign: it asks first what tells them, in one
// word (02 Ticket 5).
ghost use Rattle.std.specs.Prelude.{◌≡◌, ℕ, ◌+◌, ◌<◌, ◌≤◌};
ghost use Rattle.image.specs.Layout.{Sized, Within};
ghost use Rattle.sound.specs.Table.{is_file, view_at};
ghost use Rattle.sound.specs.Kinship.{is_child, is_child_named, child_named, free_slot};
ghost use Rattle.kinship.specs.Search.{Foreign, PassedOver, FirstKin, is_df_named, df_named};

use image::{fields, kin};
use rules::descriptor;

// A used record other than the root.
pub fn is_file(image: &[u8], s: usize) -> bool
    requires { Within image.now s }
    ensures { result ≡ is_file (view_at image.now) s }
{
    if fields::kind(image, s) == image::FREE {
        return false;
    }
    s != 0
}

// A child of directory d. The parent tells most that are none. But a free record says 0 there, as the root's children do, and a card may
// have many: so for the root the kind is asked first.
pub fn is_child(image: &[u8], d: usize, s: usize) -> bool
    requires { Within image.now s }
    ensures { result ≡ is_child (view_at image.now) d s }
{
    if d == 0 {
        if !is_file(image, s) {
            return false;
        }
        return fields::parent(image, s) == d;
    }
    if !kin::stands_in(image, s, d) {
        return false;
    }
    is_file(image, s)
}

// .. with identifier x. The word is read first: what was read tells that no parent is above 65,535.
pub fn is_child_named(image: &[u8], d: usize, x: u16, s: usize) -> bool
    requires { Within image.now s }
    ensures { result ≡ is_child_named (view_at image.now) d x s }
{
    let word = kin::word_at(image, s);
    if 65535 < d {
        return false;
    }
    if word != kin::word(x, d as u16) {
        return false;
    }
    is_file(image, s)
}

// Whether none of the four records from s on has that word.
fn four_foreign(image: &[u8], word: u32, s: usize) -> bool
    requires { Within image.now (s + 3) }
    ensures { Foreign image.now word s (s + 4) result }
{
    if kin::word_at(image, s) == word {
        return false;
    }
    if kin::word_at(image, s + 1) == word {
        return false;
    }
    if kin::word_at(image, s + 2) == word {
        return false;
    }
    kin::word_at(image, s + 3) != word
}

// The next slot from `from` on that a search has to ask: the records between, passed over four at a time, are no children of directory d
// with identifier x. Where nothing is found, all but the first and the last few are passed over so.
fn next_kin(image: &[u8], n: usize, d: usize, x: u16, from: usize) -> usize
    requires { Sized image.now n × (from ≤ n) }
    ensures { PassedOver (view_at image.now) n d x from result }
{
    if 65535 < d {
        return from;
    }
    let word = kin::word(x, d as u16);
    // No `step_by`: where the walk stops is the answer, and that is past the last four where it stops nowhere before.
    let mut s = from;
    while s + 4 <= n {
        if !four_foreign(image, word, s) {
            return s;
        }
        s += 4;
    }
    s
}

// The lowest slot that is taken when it is asked. Only a child of directory d with identifier x may be: so neither the root is asked, which
// is nobody's child, nor what `next_kin` passes over.
fn first_kin<F: Fn(usize) -> bool>(
    image: &[u8],
    n: usize,
    d: usize,
    x: u16,
    asked: F,
) -> Option<usize>
    requires sized { Sized image.now n }
    requires asked { (s : ℕ) → s < n → F.pre asked s }
    ensures { FirstKin (view_at image.now) n d x (F.post asked) result }
{
    // No range: `next_kin` says where the walk goes on.
    let mut s = 1;
    while s < n {
        if asked(s) {
            return Some(s);
        }
        s = next_kin(image, n, d, x, s + 1);
    }
    None
}

// The child of directory d with identifier x; the root is nobody's.
pub fn child_named(image: &[u8], n: usize, d: usize, x: u16) -> Option<usize>
    requires { Sized image.now n }
    ensures { result ≡ child_named n (view_at image.now) d x }
{
    first_kin(image, n, d, x, |s| is_child_named(image, d, x, s))
}

fn is_df_named(image: &[u8], d: usize, x: u16, s: usize) -> bool
    requires { Within image.now s }
    ensures { result ≡ is_df_named (view_at image.now) d x s }
{
    if !is_child_named(image, d, x, s) {
        return false;
    }
    fields::kind(image, s) == descriptor::DF
}

// The DF among the children of directory d with identifier x.
pub fn df_named(image: &[u8], n: usize, d: usize, x: u16) -> Option<usize>
    requires { Sized image.now n }
    ensures { result ≡ df_named n (view_at image.now) d x }
{
    first_kin(image, n, d, x, |s| is_df_named(image, d, x, s))
}

// The lowest slot whose record is free. The loop breaks with it: 01 names that form ("Where each form belongs").
pub fn free_slot(image: &[u8], n: usize) -> Option<usize>
    requires { Sized image.now n }
    ensures { result ≡ free_slot n (view_at image.now) }
{
    let mut s = 0;
    loop {
        if n <= s {
            break None;
        }
        if fields::kind(image, s) == image::FREE {
            break Some(s);
        }
        s += 1;
    }
}
