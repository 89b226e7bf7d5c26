// Identifiers and names: whether one is free for a new file (01 "CREATE" step L, 6A89 and 6A8A).
ghost use Rattle.std.specs.Prelude.{◌≡◌};
ghost use Rattle.laws.specs.Lists.{same_list};
ghost use Rattle.sound.specs.Table.{view_at};
ghost use Rattle.sound.specs.Kinship.{identifier_free, name_free};
ghost use Rattle.kinship.specs.Climb.{Rooted, Stands};
ghost use Rattle.kinship.specs.Search.{NamesFit};

use crate::{climb, search};
use image::fields;

// Whether no child of directory d has identifier x, nor d itself, nor a directory above it.
pub fn identifier_free(image: &[u8], n: usize, d: usize, x: u16) -> bool
    requires rooted { Rooted image.now n }
    requires stands { Stands image.now n d }
    ensures { result ≡ identifier_free n (view_at image.now) d x }
{
    search::child_named(image, n, d, x).is_none() && !climb::named_up(image, n, x, d)
}

// Whether two stretches of bytes are the same. Names of one maker begin alike and end in a number, so the last byte is
// asked first.
pub fn same(a: &[u8], b: &[u8]) -> bool
    ensures { result ≡ same_list a.now b.now }
{
    a.last() == b.last() && a == b
}

// Whether no record has that name, if it is one.
pub fn name_free(image: &[u8], n: usize, name: &[u8]) -> bool
    requires { NamesFit image.now n }
    ensures { result ≡ name_free n (view_at image.now) name.now }
{
    if name.is_empty() {
        return true;
    }
    for s in 0..n {
        if same(fields::name(image, s), name) {
            return false;
        }
    }
    true
}
