// DELETE's effect (01 "DELETE"; 02 Ticket 4): a file and all beneath it become zero records, their bytes of the pool 00, and a deleted
// current EF becomes none. What lies beneath is marked on the image as it came, and only then zeroed: a walk up over a half-zeroed
// image leads nowhere. An EF goes alone.
ghost use Rattle.std.specs.Prelude.{◌≡◌, cond, ◌<◌, length, get_or, eqb};
ghost use Rattle.image.specs.Layout.{Sized, Within, count_of, none};
ghost use Rattle.pool.specs.Bodies.{start_at, body_at};
ghost use Rattle.pool.specs.Laid.{Laid};
ghost use Rattle.sound.specs.Effects.{clear_if, clear_below, deleted, wiped};
ghost use Rattle.pool.specs.Wiped.{wiped as wiped_below};
ghost use Rattle.sound.specs.Table.{view_at};
ghost use Rattle.sound.specs.Kinship.{at_or_beneath};
ghost use Rattle.kinship.specs.Climb.{Rooted, Housed};

use image::{fields, write};
use rules::descriptor;

// Makes the record in slot s a free one, if it goes.
fn clear_if(image: &mut [u8], s: usize, goes: bool)
    requires { Within image.old s }
    ensures { image.new ≡ clear_if goes image.old s }
{
    if goes {
        write::clear_record(image, s);
    }
}

// Each record below n that is marked with 1 becomes a free one.
fn clear_chosen(image: &mut [u8], n: usize, marks: &[u8; 1023])
    requires { Sized image.old n }
    ensures { image.new ≡ clear_below n (λ k. eqb (get_or marks.now k 0) 1) image.old }
{
    for s in 0..n {
        clear_if(image, s, marks[s] == 1);
    }
}

// The current EF once the file in slot d is gone.
fn ef_left(ef: usize, d: usize) -> u16
    requires { ef < 65536 }
    ensures { result ≡ cond (eqb ef d) none ef }
{
    if ef == d {
        return image::NONE;
    }
    ef as u16
}

// The records of the file in slot d and of all beneath it become free ones, their bodies zeros. Nothing lies beneath an EF: what a
// directory needs marks for is one record there.
fn clear(image: &mut [u8], n: usize, pool: &mut [u8], d: usize)
    requires rooted { Rooted image.old n × Housed image.old n }
    requires d_lt_n { d < n }
    requires laid { Laid n (start_at image.old) (body_at image.old) (length pool.old) }
    ensures { (image.new ≡ clear_below n (at_or_beneath (view_at image.old) d) image.old)
        × (pool.new ≡ wiped_below n (at_or_beneath (view_at image.old) d) image.old pool.old) }
{
    if fields::kind(image, d) == descriptor::EF {
        pool::wipe::wipe_if(image, pool, d, true);
        write::clear_record(image, d);
        return;
    }
    let mut marks = [0u8; 1023];
    subtree::settle_all(&mut marks, image, n, d);
    pool::wipe::wipe(image, n, pool, &marks);
    clear_chosen(image, n, &marks);
}

// The file in slot d and all beneath it go.
pub fn erase(image: &mut [u8], n: usize, pool: &mut [u8], d: usize)
    requires rooted { Rooted image.old n × Housed image.old n }
    requires n_value { (n ≡ count_of image.old) × (d < n) }
    requires laid { Laid n (start_at image.old) (body_at image.old) (length pool.old) }
    ensures { (image.new ≡ deleted image.old d)
        × (pool.new ≡ wiped image.old pool.old d) }
{
    let df = fields::current_df(image);
    let ef = ef_left(fields::current_ef(image), d);
    clear(image, n, pool, d);
    write::set_current(image, df as u16, ef);
}
