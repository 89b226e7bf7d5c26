// The count of direct children that the report tells (01 "Making and reporting").
ghost use Rattle.std.specs.Prelude.{◌≡◌};
ghost use Rattle.image.specs.Layout.{Sized};
ghost use Rattle.sound.specs.Table.{view_at};
ghost use Rattle.sound.specs.Kinship.{children_of};

use crate::search;

// How many direct children directory d has.
pub fn children(image: &[u8], n: usize, d: usize) -> u32
    requires { Sized image.now n }
    ensures { result ≡ children_of n (view_at image.now) d }
{
    let mut sum = 0;
    for s in 0..n {
        sum += u32::from(search::is_child(image, d, s));
    }
    sum
}
