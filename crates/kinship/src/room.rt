// What a directory's children cost it, and whether a new file fits (01 "CREATE" step L, 6A84). Sums are made
// in 64 bits: 1,023 sizes of 32 bits with 64 each stay far below.
ghost use Rattle.std.specs.Prelude.{◌≡◌, ◌≤◌, ◌<◌};
ghost use Rattle.image.specs.Layout.{Sized, Within};
ghost use Rattle.sound.specs.Table.{view_at, charge_of, charged};
ghost use Rattle.sound.specs.Kinship.{room_for, fits_room};
ghost use Rattle.kinship.specs.Climb.{Paid};

use crate::search;
use image::fields;

// What the file in slot s costs directory d.
fn charge_of(image: &[u8], d: usize, s: usize) -> u64
    requires { Within image.now s }
    ensures { (result ≡ charge_of d s (view_at image.now s)) × (result ≤ 4294967359) }
{
    if !search::is_child(image, d, s) {
        return 0;
    }
    fields::size(image, s) + 64
}

// What all files of the card cost directory d.
pub fn charge(image: &[u8], n: usize, d: usize) -> u64
    requires { Sized image.now n }
    ensures { (result ≡ charged n (view_at image.now) d) × (result ≤ 4393751608257) }
{
    let mut sum = 0;
    for s in 0..n {
        sum += charge_of(image, d, s);
    }
    sum
}

// The room that directory d has left.
pub fn room(image: &[u8], n: usize, d: usize) -> u64
    requires sized { Sized image.now n }
    requires d_lt_n { d < n }
    requires paid { Paid image.now n d }
    ensures { (result ≡ room_for n (view_at image.now) d) × (result < 4294967296) }
{
    fields::size(image, d) - charge(image, n, d)
}

// Whether a file of that size fits into directory d.
pub fn fits_room(image: &[u8], n: usize, d: usize, size: u32) -> bool
    requires sized { Sized image.now n }
    requires d_lt_n { d < n }
    requires paid { Paid image.now n d }
    ensures { result ≡ fits_room n (view_at image.now) d size }
{
    (size as u64) + 64 <= room(image, n, d)
}
