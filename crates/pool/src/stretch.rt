// Whether a stretch of keys has none in a set (crate keys): a word of 64 keys at a time. It answers no sentence of 02: it makes the test of
// all bodies quick.
ghost use Rattle.std.specs.Prelude.{◌≡◌, ◌/◌, ◌%◌, ◌^◌, ◌<◌, ◌≤◌, eqb};
ghost use Rattle.pool.specs.Entered.{When, NoneMarked, OneMarked};

use keys::Keys;

// Whether the lowest n bits are 0.
fn low_zero(word: u64, n: usize) -> bool
    requires { n ≤ 64 }
    ensures { result ≡ eqb (word % 2 ^ n) 0 }
{
    if n == 64 {
        return word == 0;
    }
    word % (1u64 << n) == 0
}

// Whether no key from `from` to `to` is in the set.
pub fn none_between(seen: &Keys, from: usize, to: usize) -> bool
    requires { to ≤ 65536 }
    ensures { When result (NoneMarked seen.now from to) (OneMarked seen.now from to) }
{
    let mut p = from;
    // No `for`: the first step is the rest of a word, and each further one a word.
    while p < to {
        let word = seen.word_from(p);
        let room = 64 - p % 64;
        let left = (to - p).min(room);
        if !low_zero(word, left) {
            return false;
        }
        p += room;
    }
    true
}
