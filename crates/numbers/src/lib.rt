// Numbers and stretches of bytes in a slice: 16- and 32-bit numbers, high byte first, read and put; a slice copied in;
// a stretch zeroed. It answers 01 "Image": numbers are big-endian.
//
// Every put is a splice of the list of bytes, so that one law carries all that is known of an image past any write
// (laws, proofs/Splices).
#![tactic(auto)]

ghost use Rattle.std.specs.Prelude.{◌≡◌, [], ◌∷◌, ◌+◌, ◌≤◌, ◌<◌, length, replicate};
ghost use Rattle.laws.specs.Lists.{splice};
ghost use Rattle.numbers.specs.Numbers.{u16_at, u32_at, be16, be32};

// A byte as a 16-bit number. Its bound comes with it, so that no caller has to show that a byte is one: `u16::from` promises no bound.
pub fn wide(x: u8) -> u16
    ensures { (result ≡ x) × (result < 256) }
{
    x as u16
}

// The 16-bit number that stands at `at`.
#[tactic(auto, unfolding(crate::specs::Numbers::u16_at))]
pub fn u16_at(s: &[u8], at: usize) -> u16
    requires { at + 2 ≤ length s.now }
    ensures { result ≡ u16_at s.now at }
{
    u16::from_be_bytes([s[at], s[at + 1]])
}

// The 32-bit number that stands at `at`.
#[tactic(auto, unfolding(crate::specs::Numbers::u32_at, crate::specs::Numbers::u16_at))]
pub fn u32_at(s: &[u8], at: usize) -> u32
    requires { at + 4 ≤ length s.now }
    ensures { result ≡ u32_at s.now at }
{
    u32::from_be_bytes([s[at], s[at + 1], s[at + 2], s[at + 3]])
}

// Writes a byte at `at`. A store made by a call keeps the chain of splices whole.
pub fn put8(s: &mut [u8], at: usize, v: u8)
    requires { at < length s.old }
    ensures { s.new ≡ splice s.old at (v ∷ []) }
{
    s[at] = v;
}

// Writes a 16-bit number at `at`.
pub fn put16(s: &mut [u8], at: usize, v: u16)
    requires { at + 2 ≤ length s.old }
    ensures { s.new ≡ splice s.old at (be16 v) }
{
    copy_in(s, at, &v.to_be_bytes());
}

// Writes a 32-bit number at `at`.
pub fn put32(s: &mut [u8], at: usize, v: u32)
    requires { at + 4 ≤ length s.old }
    ensures { s.new ≡ splice s.old at (be32 v) }
{
    copy_in(s, at, &v.to_be_bytes());
}

// Writes all of src into dst from `at` on. Byte by byte: `copy_from_slice` is memmove, and the library for C asks for no such name outside.
pub fn copy_in(dst: &mut [u8], at: usize, src: &[u8])
    requires { at + length src.now ≤ length dst.old }
    ensures { dst.new ≡ splice dst.old at src.now }
{
    for j in 0..src.len() {
        dst[at + j] = src[j];
    }
}

// Writes n zeros into dst from `at` on.
pub fn zero_out(dst: &mut [u8], at: usize, n: usize)
    requires { at + n ≤ length dst.old }
    ensures { dst.new ≡ splice dst.old at (replicate n 0) }
{
    dst[at..at + n].fill(0);
}
