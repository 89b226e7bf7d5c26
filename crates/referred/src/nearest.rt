// The nearest file of an identifier, from a directory upwards (02 Ticket 7): one pass marks the directories that hold such a file, the walk
// up looks at marks alone, and the children of one directory are asked. So the longest way up takes no longer than a few passes.
ghost use Rattle.std.specs.Prelude.{◌≡◌, ◌+◌, ◌<◌, length};
ghost use Rattle.sound.specs.Table.{view_at};
ghost use Rattle.sound.specs.Kinship.{child_named};
ghost use Rattle.kinship.specs.Climb.{Rooted, Stands};
ghost use Rattle.referred.specs.Marks.{Marked};
ghost use Rattle.referred.specs.Nearest.{nearest_of};

use image::fields;
use kinship::{climb, search};

// Marks the directory of the file in slot s, if it has identifier x.
fn mark(image: &[u8], n: usize, x: u16, s: usize, marks: &mut [u8])
    requires rooted { Rooted image.now n }
    requires s_lt_n { s < n }
    requires marked { Marked image.now x marks.old s }
    ensures { Marked image.now x marks.new (s + 1) }
{
    if !search::is_file(image, s) {
        return;
    }
    if fields::identifier(image, s) != x {
        return;
    }
    let p = fields::parent(image, s);
    marks[p] = 1;
}

// Marks the directory of each file with identifier x.
fn mark_all(image: &[u8], n: usize, x: u16, marks: &mut [u8])
    requires rooted { Rooted image.now n }
    requires marks_len { length marks.old ≡ 1024 }
    ensures { Marked image.now x marks.new n }
{
    for s in 0..n {
        mark(image, n, x, s, marks);
    }
}

// The file with identifier x in directory t, where it has a mark.
fn child_marked(image: &[u8], n: usize, t: usize, x: u16, marks: &[u8]) -> Option<usize>
    requires rooted { Rooted image.now n }
    requires t_lt_n { t < n }
    requires marked { Marked image.now x marks.now n }
    ensures { result ≡ child_named n (view_at image.now) t x }
{
    if marks[t] != 1 {
        return None;
    }
    search::child_named(image, n, t, x)
}

// The file with identifier x in directory d, else in the nearest directory above it that has one.
pub fn nearest(image: &[u8], n: usize, d: usize, x: u16) -> Option<usize>
    requires rooted { Rooted image.now n }
    requires stands { Stands image.now n d }
    ensures { result ≡ nearest_of n (view_at image.now) d x }
{
    let mut marks = [0; 1024];
    mark_all(image, n, x, &mut marks);
    climb::first_up(image, n, d, |t| child_marked(image, n, t, x, &marks))
}
