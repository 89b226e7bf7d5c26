// Data objects in a row: a tag byte, a length byte 00-7F, and as many bytes. Whoever goes down into an object hands its value on
// as a row of its own, so that no inner length reaches past the outer's end.
ghost use Rattle.std.specs.Prelude.{◌≡◌, true, ◌<◌, ◌+◌, length};
ghost use Rattle.std.specs.Iterator.{YieldsFirstBy, item_count};
ghost use Rattle.expanded.specs.Object.{Ends, given, objects_of, several};

// Where the object at `at` ends; less than two bytes further on, where it is cut or too long.
pub fn end(s: &[u8], at: usize) -> usize
    requires { at < length s.now }
    ensures { Ends s.now at result }
{
    if s.len() - at < 2 {
        return at;
    }
    let from = at + 2;
    let n = usize::from(s[at + 1]);
    if 127 < n {
        return at;
    }
    if s.len() - from < n {
        return at;
    }
    from + n
}

// Whether the object at `at` is whole and has just n bytes. With a constant for n, whoever goes on behind it does so without
// waiting for the length byte: that is only compared.
pub fn has(s: &[u8], at: usize, n: usize) -> bool
    requires { (at < length s.now) × (n < 128) }
    ensures { result ≡ true → Ends s.now at (at + 2 + n) }
{
    if s.len() - at < 2 + n {
        return false;
    }
    usize::from(s[at + 1]) == n
}

// Whether there are at least two.
pub fn has_several(s: &[u8]) -> bool
    ensures { result ≡ several (objects_of s.now) }
{
    if s.len() < 1 {
        return false;
    }
    let to = end(s, 0);
    if to < 2 {
        return false;
    }
    to < s.len()
}

// The objects of a row, one after the other: tag and value of each, and at last none where bytes are no object.
#[derive(Drop)]
pub struct Objects<'a>(pub &'a [u8]);

impl<'a> Iterator for Objects<'a> {
    type Item = Option<(u8, &'a [u8])>;

    ghost next_gives = { YieldsFirstBy given (λ s. objects_of s.0.now) };

    ghost remaining = { item_count (λ s. objects_of s.0.now) };

    fn next(&mut self) -> Option<Option<(u8, &'a [u8])>> {
        let s = self.0;
        if s.len() < 1 {
            return None;
        }
        let to = end(s, 0);
        if to < 2 {
            self.0 = &[];
            return Some(None);
        }
        self.0 = &s[to..];
        Some(Some((s[0], &s[2..to])))
    }
}
