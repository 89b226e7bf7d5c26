// What the programs do with standard streams: they fill a fixed buffer, so that no memory is asked for, and say what failed.
#![tactic(auto)]

ghost use Rattle.std.specs.Prelude.{◌≡◌, ◌⊎◌, ℕ, ◌^◌, ◌<◌, ◌≤◌, List, length, take, IfOk};
ghost use Rattle.std.specs.Process.{exit_status};
ghost use Rattle.std.specs.Io.KnownBytes.{Consumes, IsAtEnd, Appends};

use std::io::{self, Read, Write};
use std::process::ExitCode;

// Reads until the buffer is full or the input ends: how many bytes there were. They stand at the buffer's start, in their order.
// A loop of its own: `read_to_end` asks for memory, and `read_exact` fails where the input ends before the buffer is full.
pub fn fill<R: Read>(input: &mut R, buf: &mut [u8]) -> io::Result<usize>
    ensures within { IfOk result (λ n. n ≤ length buf.new) }
    ensures bytes { IfOk result (λ n. Consumes (R.remaining input.old) (R.remaining input.new) (take n buf.new)) }
    ensures end { IfOk result (λ n. n < length buf.new → IsAtEnd (R.remaining input.new)) }
{
    let mut n = 0;
    while n < buf.len() {
        let got = input.read(&mut buf[n..])?;
        if got == 0 {
            return Ok(n);
        }
        n += got;
    }
    Ok(n)
}

// Says on standard error what failed, as far as that can be written; gives the status to end with.
pub fn failure(rt: &impl Eprint, what: &str) -> ExitCode
    ensures { exit_status result ≡ 1 }
{
    let _ = rt.eprintln(what);
    ExitCode::FAILURE
}

// A program over standard streams: what it makes of its input, and what it says where it cannot read or write.
pub trait Program<const OUT: usize> {
    const UNREAD: &'static str;

    const UNWRITTEN: &'static str;

    // the text of an input
    ghost text_of: { List ℕ → List ℕ };

    // Writes the text of the input, at the start of an array that holds the longest; gives its length.
    fn text(input: &[u8], out: &mut [u8; OUT]) -> usize
        ensures fits { result ≤ OUT }
        ensures text { take result out.new ≡ text_of input.now };
}

// One run of a program: what the input has is read, as far as `IN` bytes hold it, and its text is written. Where reading or writing
// fails, that is said on standard error.
pub fn run<P: Program<OUT>, const IN: usize, const OUT: usize, R: Read, W: Write>(
    rt: &impl Eprint,
    input: &mut R,
    output: &mut W,
) -> ExitCode
    requires sizes { (IN < 2 ^ 63) × (OUT < 2 ^ 63) }
    ensures status { (exit_status result ≡ 0) ⊎ (exit_status result ≡ 1) }
    ensures done { exit_status result ≡ 0 → (bytes : List ℕ) × (length bytes ≤ IN)
        × Consumes (R.remaining input.old) (R.remaining input.new) bytes
        × (length bytes < IN → IsAtEnd (R.remaining input.new))
        × Appends (W.contents output.old) (W.contents output.new) (P.text_of bytes) }
{
    let mut data = [0u8; IN];
    let Ok(n) = fill(input, &mut data) else {
        return failure(rt, P::UNREAD);
    };
    let mut out = [0u8; OUT];
    let long = P::text(&data[..n], &mut out);
    if output.write_all(&out[..long]).is_err() {
        return failure(rt, P::UNWRITTEN);
    }
    ExitCode::SUCCESS
}
