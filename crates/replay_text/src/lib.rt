// A stream of commands, carried out on a fresh card, and the text that is written about it (01 "Replay"). The program
// `replay` only reads a stream and writes that text.
#![tactic(auto)]

ghost use Rattle.std.specs.Prelude.{◌≡◌, false, [], ◌+◌, ◌*◌, ◌<◌, ◌≤◌, length, take};
ghost use Rattle.laws.specs.Lists.{splice};
ghost use Rattle.card.specs.Command.{reply_of, image_of, answer_word};
ghost use Rattle.text.specs.Written.{Wrote, Counted};
ghost use Rattle.replay_text.specs.Text.{line_of, bad, cut};
ghost use Rattle.replay_text.specs.Replay.{full, lent, good_header, cut_short, sent_at, end_of, word_at, image_at, run_of};
ghost use Rattle.replay_text.specs.Replay.{perform_of, replay_of};

use maker::Edition;
use rules::Sets;
use verdict::State;

// Writes a word's line at `at`.
fn put_line(out: &mut [u8], at: usize, word: u16)
    requires { at + 5 ≤ length out.old }
    ensures { out.new ≡ splice out.old at (line_of word) }
{
    let a = text::digit(word / 4096);
    let b = text::digit(word / 256 % 16);
    let c = text::digit(word / 16 % 16);
    let d = text::digit(word % 16);
    numbers::copy_in(out, at, &[a, b, c, d, b'\n']);
}

// Writes `CUT` at `at`.
fn put_cut(out: &mut [u8], at: usize)
    requires { at + 4 ≤ length out.old }
    ensures { out.new ≡ splice out.old at cut }
{
    numbers::copy_in(out, at, b"CUT\n");
}

// Where the command ends whose length stands at `at`.
fn end_of(s: &[u8], at: usize) -> usize
    requires { at + 2 ≤ length s.now }
    ensures { result ≡ end_of s.now at }
{
    let long = numbers::u16_at(s, at) as usize;
    at + 2 + long
}

// Whether the length at `at`, or the command after it, is cut short.
fn cut_short(s: &[u8], at: usize) -> bool
    requires { at < length s.now }
    ensures { result ≡ cut_short s.now at }
{
    if s.len() < at + 2 {
        return true;
    }
    let to = end_of(s, at);
    s.len() < to
}

// The command whose length stands at `at`, as a part of the stream.
fn sent(s: &[u8], at: usize) -> &[u8]
    requires { cut_short s.now at ≡ false }
    ensures { result.now ≡ sent_at s.now at }
{
    let to = end_of(s, at);
    let from = at + 2;
    &s[from..to]
}

// Carries out one command, with an empty pool, full sets and no other channel, and gives its word. What it tells is not shown.
fn step(image: &mut [u8], command: &[u8]) -> u16
    ensures { (result ≡ answer_word (reply_of image.old [] command.now full lent))
        × (image.new ≡ image_of image.old [] command.now full lent) }
{
    let mut response = [0u8; 67];
    let sets = Sets {
        messaging: 0xFFFF,
        external: 0xFFFF,
        user: 0xFFFF,
    };
    let state = State { sets, channels: 0 };
    let reply = card::command(image, &mut [], command, &mut response[..67], state);
    match reply {
        Ok(answer) => answer.word,
        Err(_) => 0,
    }
}

// Carries out the command at `at` and writes the line of its word at `put`.
fn turn(s: &[u8], at: usize, image: &mut [u8], out: &mut [u8], put: usize)
    requires { (cut_short s.now at ≡ false) × (put + 5 ≤ length out.old) }
    ensures { (image.new ≡ image_at s.now at image.old)
        × (out.new ≡ splice out.old put (line_of (word_at s.now at image.old))) }
{
    let command = sent(s, at);
    let word = step(image, command);
    put_line(out, put, word);
}

// No `for`: a command begins where the one before it ends, and not an index further.
// Carries out the commands of the stream in turn, writes a line for each, and `CUT` where one is cut short. Gives the
// number of bytes written.
fn run(s: &[u8], image: &mut [u8], out: &mut [u8]) -> usize
    requires { (11 ≤ length s.now) × (3 * length s.now + 4 ≤ length out.old) }
    ensures { Wrote result out.old out.new
        (run_of (length s.now) s.now 11 image.old) }
{
    let mut at = 11;
    let mut put = 0;
    while at < s.len() {
        if cut_short(s, at) {
            put_cut(out, put);
            return put + 4;
        }
        turn(s, at, image, out, put);
        put += 5;
        at = end_of(s, at);
    }
    put
}

// Whether a stream begins as 01 says: the mark `UFS`, version 1, and all eleven bytes of the header.
fn good_header(s: &[u8]) -> bool
    ensures { result ≡ good_header s.now }
{
    if s.len() < 11 {
        return false;
    }
    if s[0] != b'U' {
        return false;
    }
    if s[1] != b'F' {
        return false;
    }
    if s[2] != b'S' {
        return false;
    }
    numbers::u16_at(s, 3) == 1
}

// Writes `BAD` alone.
fn put_bad(out: &mut [u8]) -> usize
    requires { 4 ≤ length out.old }
    ensures { Wrote result out.old out.new bad }
{
    numbers::copy_in(out, 0, b"BAD\n");
    4
}

// Makes the fresh card of a stream in the buffer, and runs the stream on it.
fn perform(s: &[u8], image: &mut [u8], out: &mut [u8]) -> usize
    requires { (11 ≤ length s.now) × (3 * length s.now + 4 ≤ length out.old) }
    ensures { Wrote result out.old out.new (perform_of s.now image.old) }
{
    let total = numbers::u32_at(s, 7);
    let made = maker::fresh::make(
        image,
        Edition { version: 1 },
        total,
        0,
        &[0x7F, 0, 0, 0, 0, 0, 0, 0],
    );
    match made {
        Ok(()) => run(s, image, out),
        Err(_) => put_bad(out),
    }
}

// Zeros for the largest image.
fn space() -> [u8; 65488]
    ensures { 65488 ≡ length result }
{
    [0; 65488]
}

// The text of a stream, at the start of out; gives its length.
fn write(s: &[u8], out: &mut [u8]) -> usize
    requires { 98308 ≤ length out.old }
    ensures { Wrote result out.old out.new (replay_of s.now) }
{
    if 32768 < s.len() {
        numbers::copy_in(out, 0, b"BIG\n");
        return 4;
    }
    if !good_header(s) {
        return put_bad(out);
    }
    let n = numbers::u16_at(s, 5) as usize;
    if 1023 < n {
        return put_bad(out);
    }
    let long = 16 + 64 * n;
    let mut image = space();
    perform(s, &mut image[..long], out)
}

// The text of any stream, at the start of an array that holds the longest; gives its length. A line has five bytes and
// a command two at least, its length, so that three bytes for one of the stream's 32,768 and four for `CUT` are enough.
pub fn replay(s: &[u8], out: &mut [u8; 98308]) -> usize
    ensures wrote { Wrote result out.old out.new (replay_of s.now) }
    ensures counted { Counted result out.new }
    ensures taken { take result out.new ≡ replay_of s.now }
{
    write(s, out)
}
