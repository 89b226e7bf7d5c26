// The index of the bodies: which one comes next in the pool from a byte on. It answers no sentence of 02: with it a walk over the pool (the
// lowest gap, moving down) takes each body and each cell of 64 free bytes in one step, and 6 KiB of stack.
ghost use Rattle.std.specs.Prelude.{◌≡◌, ℕ, ◌+◌, ◌<◌};
ghost use Rattle.image.specs.Layout.{Within, Sized};
ghost use Rattle.pool.specs.Bodies.{start_at, body_at};
ghost use Rattle.pool.specs.Index.{mark_of, first_in, next_of, Linked, Chained, linking, nearer_of, Seen};

use crate::{Ahead, body};

// Of a slot: where its body starts, and the mark of the slot after it in its chain.
#[derive(Clone, Copy)]
pub struct Link {
    pub place: u16,
    pub next: u16,
}

// The first mark of each cell's chain, and the links of all slots. A mark is a slot plus one, or 0 for none: an Option of a slot is twice
// as long, and the stack of a call is bounded (`HULL_STACK_BYTES`).
#[derive(Drop)]
pub struct Index {
    pub firsts: [u16; 1024],
    pub links: [Link; 1024],
}

// The slot of a mark.
fn slot(mark: u16) -> Option<usize>
    ensures { mark_of result ≡ mark }
{
    (mark as usize).checked_sub(1)
}

impl Index {
    // Of no body.
    #[inline(always)]
    pub fn new() -> Self
        ensures { (a z : ℕ → ℕ) → Chained 0 a z result }
    {
        Index {
            firsts: [0; 1024],
            links: [Link { place: 0, next: 0 }; 1024],
        }
    }

    // Puts slot s, whose body starts at p, first into its chain.
    fn link(&mut self, s: usize, p: usize)
        requires { (s < 1023) × (p < 65536) }
        ensures { self.new ≡ linking self.old s p }
    {
        self.links[s] = Link {
            place: p as u16,
            next: self.firsts[p / 64],
        };
        self.firsts[p / 64] = (s + 1) as u16;
    }

    // Puts slot s into the index, if it has a body.
    fn put(&mut self, image: &[u8], s: usize)
        requires within { Within image.now s }
        requires chained { Chained s (start_at image.now) (body_at image.now) self.old }
        ensures { Chained (s + 1) (start_at image.now) (body_at image.now) self.new }
    {
        if body::size(image, s) == 0 {
            return;
        }
        self.link(s, body::start(image, s));
    }

    // The index of all n slots, from that of none.
    pub fn fill(&mut self, image: &[u8], n: usize)
        requires sized { Sized image.now n }
        requires chained { Chained 0 (start_at image.now) (body_at image.now) self.old }
        ensures { Chained n (start_at image.now) (body_at image.now) self.new }
    {
        for s in 0..n {
            self.put(image, s);
        }
    }

    // The first slot of the chain of p's cell.
    fn first(&self, p: usize) -> Option<usize>
        requires { p < 65536 }
        ensures { mark_of result ≡ first_in self.now p }
    {
        slot(self.firsts[p / 64])
    }

    // The slot after s in its chain.
    fn after(&self, s: usize) -> Option<usize>
        requires { s < 1024 }
        ensures { mark_of result ≡ next_of self.now s }
    {
        slot(self.links[s].next)
    }

    // The nearer one to p: the body of slot s, where it starts at p or above and before the other.
    fn nearer(&self, p: usize, best: Ahead, s: usize) -> Ahead
        requires { s < 1024 }
        ensures { result ≡ nearer_of self.now p best s }
    {
        let at = self.links[s].place as usize;
        if at < p {
            return best;
        }
        if best.end <= at {
            return best;
        }
        Ahead {
            end: at,
            next: Some(s),
        }
    }

    // What lies ahead of byte p: the next body that starts in its cell, or the cell's end, or the pool's.
    pub fn ahead(&self, len: usize, p: usize) -> Ahead
        requires linked { Linked self.now }
        requires p_lt_len { (p < len) × (len < 65536) }
        ensures { Seen self.now len p result }
    {
        let end = len.min((p / 64 + 1) * 64);
        let mut best = Ahead {
            end: end,
            next: None,
        };
        let mut on = self.first(p);
        // No `for`: each slot names the next.
        while let Some(s) = on {
            best = self.nearer(p, best, s);
            on = self.after(s);
        }
        best
    }
}
