// Whether the bodies lie in the pool, apart (02 Ticket 4: "Sound bodies lie in the pool, apart"), with no look at pairs: a set has all
// starts, no two alike, and then no body may have a start within it. It costs a few words for each body and a pass over a 64th of the pool.
ghost use Rattle.std.specs.Prelude.{◌≡◌, ◌+◌, ◌<◌};
ghost use Rattle.image.specs.Layout.{Sized};
ghost use Rattle.pool.specs.Bodies.{start_at, body_at};
ghost use Rattle.pool.specs.Laid.{laid as is_laid, LaidIn};
ghost use Rattle.pool.specs.Entered.{When, EnteredIn, AloneIn};

use crate::{body, stretch};
use keys::Keys;

// Puts the start of the body of s into the set; no where it leaves the pool, or another starts there.
fn enter(seen: &mut Keys, image: &[u8], n: usize, len: usize, s: usize) -> bool
    requires sized { Sized image.now n × (s < n) }
    requires entered_in { EnteredIn image.now s len seen.old }
    ensures { When result (EnteredIn image.now (s + 1) len seen.new) (LaidIn image.now n len → ⊥) }
{
    let size = body::size(image, s);
    if size == 0 {
        return true;
    }
    let start = body::start(image, s);
    if start + size > len {
        return false;
    }
    let key = start as u16;
    if seen.has(key) {
        return false;
    }
    seen.put(key);
    true
}

// .. of all slots.
fn enter_all(seen: &mut Keys, image: &[u8], n: usize, len: usize) -> bool
    requires sized { Sized image.now n }
    requires entered_in { EnteredIn image.now 0 len seen.old }
    ensures { When result (EnteredIn image.now n len seen.new) (LaidIn image.now n len → ⊥) }
{
    for s in 0..n {
        if !enter(seen, image, n, len, s) {
            return false;
        }
    }
    true
}

// Whether no body starts within that of s.
fn alone(seen: &Keys, image: &[u8], n: usize, len: usize, s: usize) -> bool
    requires sized { Sized image.now n × ((s < n) × (len < 65536)) }
    requires entered_in { EnteredIn image.now n len seen.now }
    ensures { When result (AloneIn image.now seen.now s) (LaidIn image.now n len → ⊥) }
{
    let size = body::size(image, s);
    if size == 0 {
        return true;
    }
    let start = body::start(image, s);
    if !stretch::none_between(seen, start + 1, start + size) {
        return false;
    }
    true
}

// .. within any.
fn alone_all(seen: &Keys, image: &[u8], n: usize, len: usize) -> bool
    requires sized { Sized image.now n × (len < 65536) }
    requires entered_in { EnteredIn image.now n len seen.now }
    ensures { result ≡ is_laid n (start_at image.now) (body_at image.now) len }
{
    for s in 0..n {
        if !alone(seen, image, n, len, s) {
            return false;
        }
    }
    true
}

// Whether all bodies lie in the pool, apart.
pub fn laid(image: &[u8], n: usize, len: usize) -> bool
    requires { Sized image.now n × (len < 65536) }
    ensures { result ≡ is_laid n (start_at image.now) (body_at image.now) len }
{
    let mut seen = Keys::new();
    if !enter_all(&mut seen, image, n, len) {
        return false;
    }
    alone_all(&seen, image, n, len)
}
