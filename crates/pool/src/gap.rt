// The lowest gap that fits a body of `size` bytes (02 Ticket 4: "in the lowest gap that fits").
ghost use Rattle.std.specs.Prelude.{◌≡◌, ◌<◌};
ghost use Rattle.image.specs.Layout.{Sized};
ghost use Rattle.pool.specs.Bodies.{start_at, body_at};
ghost use Rattle.pool.specs.Laid.{Laid};
ghost use Rattle.pool.specs.Gaps.{lowest_gap};
ghost use Rattle.pool.specs.Index.{Chained};

use crate::body;
use crate::index::Index;

// .. by the index: the bytes from `low` to p are in no body, and too few.
fn by_index(index: &Index, image: &[u8], n: usize, len: usize, size: usize) -> Option<usize>
    requires sized { Sized image.now n × ((len < 65536) × (0 < size)) }
    requires laid { Laid n (start_at image.now) (body_at image.now) len }
    requires chained { Chained n (start_at image.now) (body_at image.now) index.now }
    ensures { result ≡ lowest_gap n (start_at image.now) (body_at image.now) len size }
{
    let mut low = 0;
    let mut p = 0;
    // No `for`: a step takes a body or a cell, and only the index tells how far that is.
    while p < len {
        let ahead = index.ahead(len, p);
        if size <= ahead.end - low {
            return Some(low);
        }
        p = ahead.end;
        let Some(s) = ahead.next else {
            continue;
        };
        p += body::size(image, s);
        low = p;
    }
    None
}

// The lowest byte from which on `size` bytes of the pool are in no body.
pub fn lowest_gap(image: &[u8], n: usize, len: usize, size: usize) -> Option<usize>
    requires sized { Sized image.now n × ((len < 65536) × (0 < size)) }
    requires laid { Laid n (start_at image.now) (body_at image.now) len }
    ensures { result ≡ lowest_gap n (start_at image.now) (body_at image.now) len size }
{
    let mut index = Index::new();
    index.fill(image, n);
    by_index(&index, image, n, len, size)
}
