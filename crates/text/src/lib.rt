// Text in a buffer that the caller lends: capital hex digits, and a text written from a place on (01 "Replay": "One
// line of four capital hex digits a command").
#![tactic(auto)]

ghost use Rattle.std.specs.Prelude.{◌≡◌, ◌+◌, ◌<◌, ◌≤◌, length};
ghost use Rattle.text.specs.Digits.{digit_of};
ghost use Rattle.text.specs.Written.{WroteAt};

// The capital hex digit of a number below 16.
#[tactic(auto, unfolding(crate::specs::Digits::digit_of))]
pub fn digit(d: u16) -> u8
    requires { d < 16 }
    ensures { result ≡ digit_of d }
{
    if d < 10 {
        return 48 + d as u8;
    }
    55 + d as u8
}

// Writes a whole text from `at` on, and gives the place after it.
pub fn put(out: &mut [u8], at: usize, line: &[u8]) -> usize
    requires { at + length line.now ≤ length out.old }
    ensures { WroteAt at result out.old out.new line.now }
{
    numbers::copy_in(out, at, line);
    at + line.len()
}
