// Identifiers of siblings: each differs from those of its siblings (01 "Image").
//
// A walk over all records has a set of the keys seen: a file whose key is new can have no sibling like it before it,
// and only one whose key was seen looks at them. Any key would be right; this one is spread so that few files share
// one.
#![tactic(auto)]

ghost use Rattle.std.specs.Prelude.{◌≡◌, ◌+◌, ◌*◌, ◌%◌, ◌<◌};
ghost use Rattle.keys.specs.Marks.{Keyed};
ghost use Rattle.image.specs.Layout.{Sized};
ghost use Rattle.sound.specs.Table.{view_at, is_file};
ghost use Rattle.sound.specs.Kin.{siblings_at};
ghost use Rattle.sound_siblings.specs.Key.{sibling_key};

use image::fields;
use keys::Keys;
use kinship::search;

// Whether s differs from each sibling before it.
fn siblings_at(image: &[u8], n: usize, s: usize) -> bool
    requires { Sized image.now n × (s < n) }
    ensures { result ≡ siblings_at (view_at image.now) s }
{
    if !search::is_file(image, s) {
        return true;
    }
    let d = fields::parent(image, s);
    let x = fields::identifier(image, s);
    for t in 0..s {
        if search::is_child_named(image, d, x, t) {
            return false;
        }
    }
    true
}

// Parent and identifier in 16 bits.
fn key_of(parent: usize, identifier: u16) -> u16
    requires { parent < 65536 }
    ensures { (result ≡ (identifier + parent * 40503) % 65536) × (result < 65536) }
{
    (((identifier as u32) + (parent as u32) * 40503) % 65536) as u16
}

// Whether s differs from its siblings before it; only one whose key was seen looks at them. Its key is put in.
pub fn alone(seen: &mut Keys, image: &[u8], n: usize, s: usize) -> bool
    requires sized { Sized image.now n × (s < n) }
    requires keyed { Keyed (is_file (view_at image.now)) (sibling_key (view_at image.now)) s seen.old }
    ensures { (result ≡ siblings_at (view_at image.now) s)
        × Keyed (is_file (view_at image.now)) (sibling_key (view_at image.now)) (s + 1) seen.new }
{
    if !search::is_file(image, s) {
        return true;
    }
    let key = key_of(fields::parent(image, s), fields::identifier(image, s));
    if seen.has(key) {
        return siblings_at(image, n, s);
    }
    seen.put(key);
    true
}
