// DELETE's part in the pool (02 Ticket 4: "Deleted and vacated bytes become 00"): the body of every slot that is marked is zeroed, and no
// other byte changes. The image is read as it came: it is to be cleared only after this.
ghost use Rattle.std.specs.Prelude.{◌≡◌, eqb, length, get_or};
ghost use Rattle.image.specs.Layout.{Sized, Within};
ghost use Rattle.pool.specs.Bodies.{start_at, body_at};
ghost use Rattle.pool.specs.Laid.{Laid};
ghost use Rattle.pool.specs.Wiped.{EndsIn, wipe_if, wiped};

use crate::body;

// Zeroes the body of slot s, if it goes and has one.
pub fn wipe_if(image: &[u8], pool: &mut [u8], s: usize, goes: bool)
    requires within { Within image.now s }
    requires ends_in { EndsIn (start_at image.now) (body_at image.now) (length pool.old) s }
    ensures { pool.new ≡ wipe_if goes (start_at image.now) (body_at image.now) pool.old s }
{
    if !goes {
        return;
    }
    let size = body::size(image, s);
    if size == 0 {
        return;
    }
    numbers::zero_out(pool, body::start(image, s), size);
}

// The body of each slot below n that is marked with 1 is zeroed.
pub fn wipe(image: &[u8], n: usize, pool: &mut [u8], marks: &[u8; 1023])
    requires sized { Sized image.now n }
    requires laid { Laid n (start_at image.now) (body_at image.now) (length pool.old) }
    ensures { pool.new ≡ wiped n (λ k. eqb (get_or marks.now k 0) 1) image.now pool.old }
{
    for s in 0..n {
        wipe_if(image, pool, s, marks[s] == 1);
    }
}
