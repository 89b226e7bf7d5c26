// The template of a file: how long it is, and written into a lent buffer where it fits.
ghost use Rattle.std.specs.Prelude.{◌≡◌, ◌≤◌, length};
ghost use Rattle.image.specs.Layout.{rec_at};
ghost use Rattle.text.specs.Written.{Wrote};
ghost use Rattle.fcp.specs.Template.{template_of};
ghost use Rattle.fcp.specs.Writing.{Tellable, descriptor_length, name_length, Answered};

use crate::{TooShort, objects};
use image::fields;
use rules::descriptor;

// How long 82 is.
fn descriptor_length(d: u8) -> usize
    ensures { (result ≡ descriptor_length d) × (result ≤ 6) }
{
    if descriptor::has_records(d) {
        return 6;
    }
    4
}

// How long 84 is, of a name of n bytes.
fn name_length(n: usize) -> usize
    requires { n ≤ 16 }
    ensures { (result ≡ name_length n) × (result ≤ 18) }
{
    if n == 0 {
        return 0;
    }
    n + 2
}

// Image and slot stay two parameters, here and in `objects`: the readers in `image::fields`, asked for each object, take them so.
// How long the template is: 62 LL, 83, 8A, the rule's tag and length and the size are 15 bytes.
fn length_of(image: &[u8], s: usize) -> usize
    requires { Tellable image.now s }
    ensures { (result ≡ length (template_of (rec_at image.now s))) × (result ≤ 69) }
{
    let first = descriptor_length(fields::descriptor(image, s));
    let name = fields::name(image, s);
    let named = name_length(name.len());
    let rule = fields::rule(image, s);
    first + named + rule.len() + 15
}

// Writes the template, n bytes long, at the buffer's start: 62 LL, then the objects in CREATE's order, 82, 83, 84, 8A, the rule and the
// size.
fn fill(out: &mut [u8], image: &[u8], s: usize, n: usize) -> usize
    requires tellable { Tellable image.now s }
    requires n_value { (n ≡ length (template_of (rec_at image.now s))) × ((n ≤ 69) × (n ≤ length out.old)) }
    ensures { Wrote result out.old out.new (template_of (rec_at image.now s)) }
{
    let a = text::put(out, 0, &[0x62, (n - 2) as u8]);
    let b = objects::put_descriptor(out, a, image, s);
    let c = objects::put(out, b, 0x83, &fields::identifier(image, s).to_be_bytes());
    let d = objects::put_name(out, c, image, s);
    let e = objects::put(out, d, 0x8A, &[fields::life_cycle(image, s)]);
    let f = objects::put(
        out,
        e,
        access::tag_of(fields::form(image, s)),
        fields::rule(image, s),
    );
    let size = fields::size(image, s) as u16;
    objects::put(out, f, objects::size_tag(image, s), &size.to_be_bytes())
}

// The template of the file in slot s at the start of the buffer, whose other bytes stay, with its length; or that the buffer, as it came,
// is shorter than the template.
pub fn write(out: &mut [u8], image: &[u8], s: usize) -> Result<usize, TooShort>
    requires { Tellable image.now s }
    ensures { Answered (template_of (rec_at image.now s)) out.old out.new result }
{
    let n = length_of(image, s);
    if out.len() < n {
        return Err(TooShort);
    }
    Ok(fill(out, image, s, n))
}
