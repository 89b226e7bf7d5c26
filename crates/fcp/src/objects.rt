// The objects of a file's template, each written at a place; each writer gives the place after its object.
ghost use Rattle.std.specs.Prelude.{◌≡◌, ◌+◌, ◌≤◌, length};
ghost use Rattle.image.specs.Layout.{rec_at};
ghost use Rattle.text.specs.Written.{WroteAt};
ghost use Rattle.create_data.specs.Grammar.{object};
ghost use Rattle.fcp.specs.Template.{descriptor_object, name_object, size_tag};
ghost use Rattle.fcp.specs.Writing.{Tellable};

use image::fields;
use rules::descriptor;

// A tag, a length and the bytes of v.
pub fn put(out: &mut [u8], at: usize, tag: u8, v: &[u8]) -> usize
    requires { (at + 2 + length v.now ≤ length out.old) × (length v.now ≤ 127) }
    ensures { WroteAt at result out.old out.new (object tag v.now) }
{
    let next = text::put(out, at, &[tag, v.len() as u8]);
    text::put(out, next, v)
}

// 82: the descriptor, 21, and where the structure has records, the record length.
pub fn put_descriptor(out: &mut [u8], at: usize, image: &[u8], s: usize) -> usize
    requires { Tellable image.now s × (at + length (descriptor_object (rec_at image.now s)) ≤ length out.old) }
    ensures { WroteAt at result out.old out.new (descriptor_object (rec_at image.now s)) }
{
    let d = fields::descriptor(image, s);
    if descriptor::has_records(d) {
        let [high, low] = fields::record_length(image, s).to_be_bytes();
        return put(out, at, 0x82, &[d, 0x21, high, low]);
    }
    put(out, at, 0x82, &[d, 0x21])
}

// 84, where there is a name.
pub fn put_name(out: &mut [u8], at: usize, image: &[u8], s: usize) -> usize
    requires { Tellable image.now s × (at + length (name_object (rec_at image.now s)) ≤ length out.old) }
    ensures { WroteAt at result out.old out.new (name_object (rec_at image.now s)) }
{
    let v = fields::name(image, s);
    if v.is_empty() {
        return at;
    }
    put(out, at, 0x84, v)
}

// The tag of the size: 81 for a DF, 80 for an EF.
pub fn size_tag(image: &[u8], s: usize) -> u8
    requires { Tellable image.now s }
    ensures { result ≡ size_tag (rec_at image.now s) }
{
    if fields::kind(image, s) == descriptor::DF {
        return 0x81;
    }
    0x80
}
