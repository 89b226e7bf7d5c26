// Bodies are moved down, in the order of their starts, until no gap is left below any (02 Ticket 4: "bodies are moved down first, in
// order"; "vacated bytes become 00"); how many bytes that moved (Ticket 8: PACK and CREATE "report the bytes moved").
ghost use Rattle.std.specs.Prelude.{◌≡◌, not, ◌+◌, ◌<◌, ◌≤◌, eqb, length};
ghost use Rattle.laws.specs.Walks.{if_so};
ghost use Rattle.image.specs.Layout.{Sized};
ghost use Rattle.pool.specs.Bodies.{start_at, body_at};
ghost use Rattle.pool.specs.Laid.{Laid};
ghost use Rattle.pool.specs.Index.{Chained};
ghost use Rattle.pool.specs.Packed.{move_down, moved_bytes, packed_image, packed_pool};

use crate::body;
use crate::index::Index;
use image::write;

// Moves `size` bytes down, the lowest first; those that are left become 00. Byte by byte: `copy_within` is memmove, and the library for C
// asks for no such name outside.
fn move_down(pool: &mut [u8], from: usize, to: usize, size: usize)
    requires { (to ≤ from) × (from + size ≤ length pool.old) }
    ensures { pool.new ≡ move_down pool.old from to size }
{
    if from == to {
        return;
    }
    for j in 0..size {
        pool[to + j] = pool[from + j];
    }
    let left = from.max(to + size);
    pool[left..from + size].fill(0);
}

// How many bytes a body of `size` counts for.
fn counted(from: usize, to: usize, size: usize) -> usize
    ensures { (result ≡ if_so (not (eqb from to)) size) × (result ≤ size) }
{
    if from == to {
        return 0;
    }
    size
}

// .. by the index. Bodies that start below p lie below `to` already.
fn by_index(index: &Index, image: &mut [u8], n: usize, pool: &mut [u8]) -> usize
    requires sized { Sized image.old n × (length pool.old < 65536) }
    requires laid { Laid n (start_at image.old) (body_at image.old) (length pool.old) }
    requires chained { Chained n (start_at image.old) (body_at image.old) index.now }
    ensures value { result ≡ moved_bytes n (start_at image.old) (body_at image.old) }
    ensures image_after { image.new ≡ packed_image n image.old }
    ensures pool_after { pool.new ≡ packed_pool n (start_at image.old) (body_at image.old) pool.old }
{
    let len = pool.len();
    let mut moved = 0;
    let mut to = 0;
    let mut p = 0;
    // No `for`: a step takes a body or a cell, and only the index tells how far that is.
    while p < len {
        let ahead = index.ahead(len, p);
        p = ahead.end;
        let Some(s) = ahead.next else {
            continue;
        };
        let size = body::size(image, s);
        move_down(pool, p, to, size);
        write::set_start(image, s, to);
        moved += counted(p, to, size);
        to += size;
        p += size;
    }
    moved
}

// Moves all bodies down; gives the number of bytes moved.
pub fn pack(image: &mut [u8], n: usize, pool: &mut [u8]) -> usize
    requires sized { Sized image.old n × (length pool.old < 65536) }
    requires laid { Laid n (start_at image.old) (body_at image.old) (length pool.old) }
    ensures value { result ≡ moved_bytes n (start_at image.old) (body_at image.old) }
    ensures image_after { image.new ≡ packed_image n image.old }
    ensures pool_after { pool.new ≡ packed_pool n (start_at image.old) (body_at image.old) pool.old }
{
    let mut index = Index::new();
    index.fill(image, n);
    by_index(&index, image, n, pool)
}
