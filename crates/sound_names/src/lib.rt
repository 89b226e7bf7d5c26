// Names: no two non-empty names on the card are equal (01 "Image").
//
// The walk over the pairs has a set of the keys of names seen: a record with no name, or with one whose key is new,
// has no pair to look at. Any key would be right; this one is spread so that few names share one.
#![tactic(auto)]

ghost use Rattle.std.specs.Prelude.{◌≡◌, [], true, not, ◌&&◌, ◌+◌, ◌*◌, ◌<◌, ◌≤◌, length};
ghost use Rattle.laws.specs.Lists.{same_list};
ghost use Rattle.keys.specs.Marks.{Keyed};
ghost use Rattle.numbers.specs.Numbers.{u32_at};
ghost use Rattle.image.specs.Layout.{Sized, name_of};
ghost use Rattle.sound.specs.Table.{view_at};
ghost use Rattle.sound.specs.Kin.{same_name, namesb};
ghost use Rattle.sound.specs.Own.{Padded};
ghost use Rattle.sound.specs.Sound.{recordsb};
ghost use Rattle.sound_names.specs.Key.{name_key, name_key_at, has_name, LooksBack};

use image::fields;
use keys::Keys;

// The eight bytes of a record from `at` on, as one number. Written as one, not as two of four bytes, so that it is one load and one comparison.
#[tactic(auto, unfolding(numbers::specs::Numbers::u32_at, numbers::specs::Numbers::u16_at))]
fn eight_at(r: &[u8], at: usize) -> u64
    requires { at + 8 ≤ length r.now }
    ensures { result ≡ u32_at r.now at * 4294967296 + u32_at r.now (at + 4) }
{
    u64::from_be_bytes([
        r[at],
        r[at + 1],
        r[at + 2],
        r[at + 3],
        r[at + 4],
        r[at + 5],
        r[at + 6],
        r[at + 7],
    ])
}

// Whether record a has a name, and b the same: the sixteen bytes, in which zeros follow a name, as two numbers, and the length. By numbers,
// for this is most of soundness where names share a key; the last is asked first, since names of one maker begin alike.
fn one_name(a: &[u8], b: &[u8]) -> bool
    requires long { (length a.now ≡ 64) × (length b.now ≡ 64) }
    requires padded { Padded 16 a.now 16 × Padded 16 b.now 16 }
    ensures { result ≡ (not (same_list (name_of a.now) []) && same_list (name_of b.now) (name_of a.now)) }
{
    if a[16] == 0 {
        return false;
    }
    if eight_at(b, 25) != eight_at(a, 25) {
        return false;
    }
    if eight_at(b, 17) != eight_at(a, 17) {
        return false;
    }
    b[16] == a[16]
}

// Whether s has a name, and t the same.
fn same_name(image: &[u8], n: usize, s: usize, t: usize) -> bool
    requires sized { Sized image.now n × ((s < n) × (t < n)) }
    requires n_value { recordsb image.now n ≡ true }
    ensures { result ≡ same_name (view_at image.now) s t }
{
    one_name(fields::record(image, s), fields::record(image, t))
}

// The name of a record in 16 bits.
fn key_of(r: &[u8]) -> u16
    requires { length r.now ≡ 64 }
    ensures { (result ≡ name_key r.now) × (result < 65536) }
{
    let a = numbers::u32_at(r, 17) as u64;
    let b = numbers::u32_at(r, 21) as u64;
    let c = numbers::u32_at(r, 25) as u64;
    let d = numbers::u32_at(r, 29) as u64;
    ((a * 31 + b * 1021 + c * 32771 + d * 65539) % 65521) as u16
}

// How far s has to look back: not at all where it has no name, or one with a new key, which is put in.
fn look_back(seen: &mut Keys, image: &[u8], n: usize, s: usize) -> usize
    requires sized { Sized image.now n × (s < n) }
    requires n_value { recordsb image.now n ≡ true }
    requires keyed { Keyed (has_name (view_at image.now)) (name_key_at image.now) s seen.old }
    ensures { LooksBack (view_at image.now) s result
        × Keyed (has_name (view_at image.now)) (name_key_at image.now) (s + 1) seen.new }
{
    if fields::name(image, s).len() == 0 {
        return 0;
    }
    let key = key_of(fields::record(image, s));
    if seen.has(key) {
        return s;
    }
    seen.put(key);
    0
}

// Whether no two records have one name: a walk over the pairs, left at the first that has.
pub fn distinct(image: &[u8], n: usize) -> bool
    requires sized { Sized image.now n }
    requires n_value { recordsb image.now n ≡ true }
    ensures { result ≡ namesb n (view_at image.now) }
{
    let mut seen = Keys::new();
    let mut distinct = true;
    'pairs: for s in 0..n {
        let back = look_back(&mut seen, image, n, s);
        for t in 0..back {
            if same_name(image, n, s, t) {
                distinct = false;
                break 'pairs;
            }
        }
    }
    distinct
}
