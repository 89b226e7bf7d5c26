// Room for a new body (02 Ticket 4: "A new body is all FF, in the lowest gap that fits. If no gap fits, bodies are moved down first, in
// order"), and the count of bytes moved for it (Ticket 8).
ghost use Rattle.std.specs.Prelude.{◌≡◌, ◌+◌, ◌<◌, ◌≤◌, length, replicate};
ghost use Rattle.laws.specs.Lists.{splice};
ghost use Rattle.laws.specs.Walks.{sum_below};
ghost use Rattle.image.specs.Layout.{Sized};
ghost use Rattle.pool.specs.Bodies.{start_at, body_at};
ghost use Rattle.pool.specs.Laid.{Laid};
ghost use Rattle.pool.specs.Places.{Made};

use crate::{Room, body, gap, moving};

// Writes m bytes FF from `at` on.
fn fill(pool: &mut [u8], at: usize, m: usize)
    requires { at + m ≤ length pool.old }
    ensures { pool.new ≡ splice pool.old at (replicate m 255) }
{
    pool[at..at + m].fill(255);
}

// The sum of the sizes of all bodies.
pub fn total(image: &[u8], n: usize) -> usize
    requires { Sized image.now n }
    ensures { result ≡ sum_below n (body_at image.now) }
{
    let mut sum = 0;
    for s in 0..n {
        sum += body::size(image, s);
    }
    sum
}

// Makes room for a body of m bytes and writes it, all FF. That it fits is the caller's: the sum of sizes decides.
pub fn make(image: &mut [u8], n: usize, pool: &mut [u8], m: usize) -> Room
    requires sized { Sized image.old n × ((length pool.old < 65536) × (0 < m)) }
    requires laid { Laid n (start_at image.old) (body_at image.old) (length pool.old) }
    requires m_in_bounds { sum_below n (body_at image.old) + m ≤ length pool.old }
    ensures { Made n m image.old pool.old result image.new pool.new }
{
    let len = pool.len();
    let found = gap::lowest_gap(image, n, len, m);
    if let Some(p) = found {
        fill(pool, p, m);
        return Room { start: p, moved: 0 };
    }
    let end = total(image, n);
    let moved = moving::pack(image, n, pool);
    fill(pool, end, m);
    Room {
        start: end,
        moved: moved,
    }
}
