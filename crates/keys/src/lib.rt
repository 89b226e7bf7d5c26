// A set of 16-bit keys as the bits of 1,024 words: in it or not, and put into it. It uses no other crate. It
// answers no sentence of 01: it makes those quick that speak of every pair of records ("Image": siblings,
// directories above, names; bodies, which lie apart). A record whose key is new can have no earlier one like it,
// and need not look at those before it.
#![tactic(auto)]

ghost use Rattle.std.specs.Prelude.{◌≡◌, ℕ, ◌/◌, ◌%◌, ◌^◌, ◌<◌, List, get_or, replicate};
ghost use Rattle.keys.specs.Marks.{marked, marking};

use std::marker::Model;

// The set, 8 KiB on the stack of the one who makes it.
#[derive(Drop)]
pub struct Keys {
    words: [u64; 1024],
}

// Clauses see the words.
impl Model for Keys {
    ghost Value = { List ℕ };

    ghost view = { λ k. k.words };
}

impl Keys {
    // The set with no key in it.
    #[inline(always)]
    pub fn new() -> Self
        ensures { result ≡ replicate 1024 0 }
    {
        Keys { words: [0; 1024] }
    }

    // Whether the set has the key.
    pub fn has(&self, key: u16) -> bool
        ensures { result ≡ marked self.now key }
    {
        let word = self.words[(key / 64) as usize];
        (word >> (key % 64)) % 2 == 1
    }

    // Puts the key into the set.
    pub fn put(&mut self, key: u16)
        ensures { self.new ≡ marking self.old key }
    {
        let at = (key / 64) as usize;
        self.words[at] = self.words[at] | (1u64 << (key % 64));
    }

    // The keys from p on that share a word with it, as the low bits of a number.
    pub fn word_from(&self, p: usize) -> u64
        requires { p < 65536 }
        ensures { result ≡ get_or self.now (p / 64) 0 / 2 ^ (p % 64) }
    {
        self.words[p / 64] >> (p % 64)
    }
}
