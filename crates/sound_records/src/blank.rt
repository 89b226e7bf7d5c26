// Stretches of bytes that must be zero (01 "Image"): the header's last five, a free record, the padding of a
// name and of a rule, the end of a used record. Every command tests every record, and a way out for each byte
// costs more than the bytes: long stretches are tested in words of eight bytes, which may overlap, or as a whole.
ghost use Rattle.std.specs.Prelude.{◌≡◌, ◌+◌, ◌-◌, ◌<◌, ◌≤◌, length};
ghost use Rattle.sound.specs.Own.{zerosb};

// Whether the n bytes of s from `at` on are zero, byte by byte: for a few.
pub fn zeros(s: &[u8], at: usize, n: usize) -> bool
    requires { at + n ≤ length s.now }
    ensures { result ≡ zerosb s.now at n }
{
    s[at..at + n].iter().all(|byte| *byte == 0)
}

// Whether eight bytes are zero, as one number.
fn eight(s: &[u8], at: usize) -> bool
    requires { at + 8 ≤ length s.now }
    ensures { result ≡ zerosb s.now at 8 }
{
    let high = numbers::u32_at(s, at) as u64;
    let low = numbers::u32_at(s, at + 4) as u64;
    high * 4294967296 + low == 0
}

// Whether 64 bytes are zero, gathered with no way out between.
pub fn record(r: &[u8]) -> bool
    requires { length r.now ≡ 64 }
    ensures { result ≡ zerosb r.now 0 64 }
{
    let mut all: u8 = 0;
    for k in 0..64 {
        all = all | r[k];
    }
    all == 0
}

// Whether a record has no name: neither a length nor a byte of one.
pub fn name(r: &[u8]) -> bool
    requires { length r.now ≡ 64 }
    ensures { result ≡ zerosb r.now 16 17 }
{
    if !eight(r, 16) {
        return false;
    }
    if !eight(r, 24) {
        return false;
    }
    eight(r, 25)
}

// Whether the bytes after a name of n bytes are zero, up to the rule's length.
pub fn after_name(r: &[u8], n: usize) -> bool
    requires { (length r.now ≡ 64) × (n ≤ 16) }
    ensures { result ≡ zerosb r.now (17 + n) (16 - n) }
{
    if n > 8 {
        return zeros(r, 17 + n, 16 - n);
    }
    if !eight(r, 17 + n) {
        return false;
    }
    eight(r, 25)
}

// Whether the bytes after a rule of more than 16 bytes are zero, up to `to`: the end of the record, or the start of a body.
pub fn after_long_rule(r: &[u8], n: usize, to: usize) -> bool
    requires r_len { (length r.now ≡ 64) × ((16 < n) × (34 + n ≤ to)) }
    requires le_to { (62 ≤ to) × (to ≤ 64) }
    ensures { result ≡ zerosb r.now (34 + n) (to - (34 + n)) }
{
    if n > 20 {
        return zeros(r, 34 + n, to - (34 + n));
    }
    if !eight(r, 34 + n) {
        return false;
    }
    eight(r, to - 8)
}

// The same of a rule of at most 16 bytes. The words lie so that no length of it is a case of its own. No one function with that above: its
// first words are below the stretch after a long rule, and the test here is the one that nearly every record takes.
pub fn after_rule(r: &[u8], n: usize, to: usize) -> bool
    requires r_len { (length r.now ≡ 64) × (n ≤ 16) }
    requires le_to { (62 ≤ to) × (to ≤ 64) }
    ensures { result ≡ zerosb r.now (34 + n) (to - (34 + n)) }
{
    if !eight(r, 34 + n) {
        return false;
    }
    if !eight(r, 42 + n / 2) {
        return false;
    }
    if !eight(r, 48 + n / 8) {
        return false;
    }
    eight(r, to - 8)
}
