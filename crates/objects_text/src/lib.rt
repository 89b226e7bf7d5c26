// The objects of CREATE's data, listed for a person whose data was refused with 6A80 (01 "CREATE", data). The program
// `objects` only reads data and writes that text.
//
// A line begins with a place in the data, in two hex digits. `02 82 02`: at 02 stands the object 82 of 02 bytes. `0A 8A
// 01 07 activated`: an 8A of one byte, with its life cycle in words. `15 END`: the objects end where the data does. `0A
// BREAK`: no whole object stands at 0A. `00 HEAD`, in front: the data is not 62, LL and LL bytes. The last line is CREATE's
// own reading: `DF`, `EF` or `6A80`, behind the place up to which it took the objects in 01's order. `DF 2` and `EF 2` are what
// a card of version 2 takes and one of version 1 does not, for its rule (02 Ticket 3; up to 28 bytes of rule, one of version 3 takes it
// too), `DF 3` and `EF 3` what only one of version 3 takes, for its rule stands in 8B (02 Ticket 7): the data do not say which card they
// are for.
//
// The buffer and the place in it go as two parameters: a struct of both would only be opened again by each contract, as by `WroteAt`.
#![tactic(auto)]

ghost use Rattle.std.specs.Prelude.{◌≡◌, ◌+◌, ◌<◌, ◌≤◌, length, take, Some};
ghost use Rattle.rules.specs.Life.{life_of};
ghost use Rattle.template.specs.Objects.{object_at};
ghost use Rattle.text.specs.Written.{WroteAt, Wrote, Counted};
ghost use Rattle.objects_text.specs.Lines.{hex, mark_line, life_word};
ghost use Rattle.create_data.specs.Data.{data_of};
ghost use Rattle.objects_text.specs.Listing.{rest_of, line_of, stop_at, lines_from, head_of, told, word_of, reading_of, list_of};

use create_data::{Data, judge};
use rules::life_cycle::{self, Life};
use template::{Object, Span, gather};

// A byte in two hex digits.
fn hex(byte: u16) -> [u8; 2]
    requires { byte < 256 }
    ensures { result ≡ hex byte }
{
    [text::digit(byte / 16), text::digit(byte % 16)]
}

// Writes a place or a byte in two hex digits, and a word behind it.
#[tactic(auto, unfolding(crate::specs::Lines::mark_line))]
fn put_mark(out: &mut [u8], put: usize, at: u16, word: &[u8]) -> usize
    requires { (at < 256) × (put + 3 + length word.now ≤ length out.old) }
    ensures { WroteAt put result out.old out.new (mark_line at word.now) }
{
    let [a, b] = hex(at);
    let next = text::put(out, put, &[a, b, b' ']);
    text::put(out, next, word)
}

// The life cycle of a byte in words, to the end of the line.
#[tactic(auto, unfolding(crate::specs::Lines::life_word))]
fn life_word(x: u8) -> &'static [u8]
    ensures word { result.now ≡ life_word (life_of x) }
    ensures short { length result.now ≤ 15 }
{
    match life_cycle::class(x) {
        Some(Life::Creation) => b"creation\n",
        Some(Life::Initialisation) => b"initialisation\n",
        Some(Life::Activated) => b"activated\n",
        Some(Life::Deactivated) => b"deactivated\n",
        Some(Life::Terminated) => b"terminated\n",
        None => b"unknown\n",
    }
}

// Writes what stands behind an object's tag and length: of 8A its life cycle, if it is one byte; else the line ends.
#[tactic(auto, unfolding(crate::specs::Listing::rest_of, crate::specs::Lines::life_line))]
fn put_rest(s: &[u8], object: Object, out: &mut [u8], put: usize) -> usize
    requires { (object.value.start ≤ object.value.end) × (object.value.end ≤ length s.now) × (put + 19 ≤ length out.old) }
    ensures { WroteAt put result out.old out.new (rest_of s.now object) }
{
    let Span { start, end } = object.value;
    if object.tag != 0x8A || end - start != 1 {
        return text::put(out, put, b"\n");
    }
    let next = text::put(out, put, b" ");
    let life = s[start];
    put_mark(out, next, u16::from(life), life_word(life))
}

// Writes the line of the object that stands at a place: place, tag, length, and what stands behind.
fn put_object(s: &[u8], at: usize, object: Object, out: &mut [u8], put: usize) -> usize
    requires { (Some object ≡ object_at s.now at) × (at < 256) × (put + 27 ≤ length out.old) }
    ensures { WroteAt put result out.old out.new (line_of s.now at (Some object)) }
{
    let Span { start, end } = object.value;
    let [a, b] = hex(u16::from(object.tag));
    let [c, d] = hex((end - start) as u16);
    let next = put_mark(out, put, at as u16, &[a, b, b' ', c, d]);
    put_rest(s, object, out, next)
}

// Writes the line where the objects stop: `END` at the end of the data, else `BREAK`.
#[tactic(auto, unfolding(crate::specs::Listing::stop_at))]
fn put_stop(s: &[u8], at: usize, out: &mut [u8], put: usize) -> usize
    requires { (at < 256) × (put + 9 ≤ length out.old) }
    ensures { WroteAt put result out.old out.new (stop_at s.now at) }
{
    let word: &[u8] = if at == s.len() { b"END\n" } else { b"BREAK\n" };
    put_mark(out, put, at as u16, word)
}

// Writes the lines of the objects behind 62 LL, from `from` on, and the line where they stop.
fn walk(s: &[u8], out: &mut [u8], from: usize) -> usize
    requires { (length s.now < 256) × (from ≤ 10) × (2304 ≤ length out.old) }
    ensures { WroteAt from result out.old out.new (lines_from (length s.now) s.now 2)
        × (result ≤ 2304) }
{
    let mut at = 2;
    let mut put = from;
    // No `for`: a line begins with the place of its object, which an iterator over the objects would hand out beside each.
    while let Some(object) = reader::object(s, at) {
        put = put_object(s, at, object, out, put);
        at = reader::after(s, at);
    }
    put_stop(s, at, out, put)
}

// Writes `HEAD` behind place 00 where the data is no template; else nothing.
#[tactic(auto, unfolding(crate::specs::Listing::head_of))]
fn put_head(s: &[u8], out: &mut [u8]) -> usize
    requires { 8 ≤ length out.old }
    ensures { Wrote result out.old out.new (head_of s.now) }
{
    if judge::is_template(s) {
        return 0;
    }
    put_mark(out, 0, 0, b"HEAD\n")
}

// The word for data that are taken: that for a DF, or that for an EF.
fn told<'a>(new: Data, df: &'a [u8], ef: &'a [u8]) -> &'a [u8]
    ensures { result.now ≡ told df.now ef.now new }
{
    match new {
        Data::Df(_) => df,
        Data::Ef(_) => ef,
    }
}

// The word of what CREATE makes of data: on a card of version 1, else on one of version 2, else on one of version 3.
fn word(s: &[u8]) -> &'static [u8]
    ensures word { result.now ≡ word_of (data_of 1 s.now) (data_of 2 s.now) (data_of 3 s.now) }
    ensures short { length result.now ≤ 5 }
{
    if let Some(new) = create_data::read(s, 1) {
        told(new, b"DF\n", b"EF\n")
    } else if let Some(new) = create_data::read(s, 2) {
        told(new, b"DF 2\n", b"EF 2\n")
    } else if let Some(new) = create_data::read(s, 3) {
        told(new, b"DF 3\n", b"EF 3\n")
    } else {
        b"6A80\n"
    }
}

// Writes how CREATE reads the data: up to which place it takes the objects, and `DF`, `EF` or `6A80`.
#[tactic(auto, unfolding(crate::specs::Listing::reading_of))]
fn put_reading(s: &[u8], out: &mut [u8], put: usize) -> usize
    requires { (length s.now < 256) × (put + 8 ≤ length out.old) }
    ensures { WroteAt put result out.old out.new (reading_of s.now) }
{
    let o = gather::all(s);
    put_mark(out, put, o.next as u16, word(s))
}

// The text of data, at the start of out; gives its length.
fn write(s: &[u8], out: &mut [u8]) -> usize
    requires { 2312 ≤ length out.old }
    ensures { Wrote result out.old out.new (list_of s.now) }
{
    if 255 < s.len() {
        return text::put(out, 0, b"BIG\n");
    }
    let head = put_head(s, out);
    let lines = walk(s, out, head);
    put_reading(s, out, lines)
}

// The text of any data, at the start of an array that holds the longest; gives its length. A line has at most 27 bytes where the
// object is an 8A of three, else nine, and an object has two bytes at least: so nine bytes for one of the data's 255, nine for
// `BREAK` and eight for `6A80` are enough.
pub fn list(s: &[u8], out: &mut [u8; 2312]) -> usize
    ensures wrote { Wrote result out.old out.new (list_of s.now) }
    ensures counted { Counted result out.new }
    ensures taken { take result out.new ≡ list_of s.now }
{
    write(s, out)
}
