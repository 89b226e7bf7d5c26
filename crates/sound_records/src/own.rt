// Each record by itself, as a slice of 64 bytes: all zero, or kind, descriptor, life cycle, identifier, size,
// record length, name, rule and zero bytes as they must be (01 "Image"). The two tables are made once for all
// records, and lent.
ghost use Rattle.std.specs.Prelude.{◌≡◌, ◌&&◌, ◌<◌, ◌≤◌, leb, length, get_or};
ghost use Rattle.rules.specs.Descriptor.{Classes};
ghost use Rattle.rules.specs.Group.{Lengths};
ghost use Rattle.rules.specs.Value.{whole_records};
ghost use Rattle.image.specs.Layout.{Sized, Within, forms_of, rec_at, form_of, record_length_of, size_of};
ghost use Rattle.sound_records.specs.Ends.{zeros_end};
ghost use Rattle.sound.specs.Own.{classedb, measuredb, nameb, ruledb, usedb, ownb};
ghost use Rattle.sound.specs.Sound.{recordsb};

use crate::blank;

// What the test of every record is made by: the image's version, and the two tables, right at each byte.
#[derive(Drop)]
struct Measures {
    version: u32,
    classes: [u8; 256],
    lengths: [u8; 256],
    ghost classed: { Classes classes },
    ghost measured: { Lengths lengths },
}

// Kind, descriptor, life cycle, identifier.
fn classed(r: &[u8], by: &Measures) -> bool
    requires { length r.now ≡ 64 }
    ensures { result ≡ classedb r.now }
{
    let d = numbers::wide(r[1]) as usize;
    if by.classes[d] != r[0] {
        return false;
    }
    if !rules::life_cycle::is_known(r[2]) {
        return false;
    }
    rules::value::good_identifier(numbers::u16_at(r, 4))
}

// Size and record length of a file with records.
fn recorded(r: &[u8]) -> bool
    requires { length r.now ≡ 64 }
    ensures { result ≡ (leb 1 (size_of r.now) && whole_records (record_length_of r.now) (size_of r.now)) }
{
    let size = numbers::u32_at(r, 12);
    if size < 1 {
        return false;
    }
    rules::value::whole_records(numbers::u16_at(r, 10), size)
}

// Size and record length. Where there are no records both are only compared with zero.
fn measured(r: &[u8]) -> bool
    requires { length r.now ≡ 64 }
    ensures { result ≡ measuredb r.now }
{
    if rules::descriptor::has_records(r[1]) {
        return recorded(r);
    }
    if numbers::u16_at(r, 10) != 0 {
        return false;
    }
    numbers::u32_at(r, 12) != 0
}

// The name; an EF has none.
fn name_fits(r: &[u8]) -> bool
    requires { length r.now ≡ 64 }
    ensures { result ≡ nameb r.now }
{
    if blank::name(r) {
        return true;
    }
    let n = numbers::wide(r[16]) as usize;
    if n > 16 {
        return false;
    }
    if r[0] == 2 {
        return false;
    }
    blank::after_name(r, n)
}

// Where the zeros after a rule end: at the start of a body, where one stands, else at the end of the record.
fn zeros_end(r: &[u8], v: u32) -> usize
    requires { length r.now ≡ 64 }
    ensures { (result ≡ zeros_end v r.now) × ((62 ≤ result) × (result ≤ 64)) }
{
    if !image::version::has_bodies(v) {
        return 64;
    }
    if r[0] == rules::descriptor::EF {
        return 62;
    }
    64
}

// A rule of n bytes, more than 16: as long as the version has room for, and zeros after it up to `end`. What most rules do not
// ask stands apart.
fn ruled_long(r: &[u8], n: usize, end: usize, by: &Measures) -> bool
    requires r_len { (length r.now ≡ 64) × ((n ≡ get_or r.now 33 0) × (16 < n)) }
    requires form { form_of r.now < forms_of by.now.version }
    requires end_value { (end ≡ zeros_end by.now.version r.now) × ((62 ≤ end) × (end ≤ 64)) }
    ensures { result ≡ ruledb by.now.version r.now }
{
    if image::version::longest_rule(by.version) < n {
        return false;
    }
    if !blank::after_long_rule(r, n, end) {
        return false;
    }
    let to = 34 + n;
    access::formed_by(r[3], &r[34..to], &by.lengths)
}

// The rule, of one of the version's forms, which has room for 16 bytes at least, and zeros after it to the end, or to the start of a body.
fn ruled(r: &[u8], by: &Measures) -> bool
    requires { length r.now ≡ 64 }
    ensures { result ≡ ruledb by.now.version r.now }
{
    let n = numbers::wide(r[33]) as usize;
    if n < 1 {
        return false;
    }
    if !image::version::has_form(by.version, r[3]) {
        return false;
    }
    let end = zeros_end(r, by.version);
    if n > 16 {
        return ruled_long(r, n, end, by);
    }
    if !blank::after_rule(r, n, end) {
        return false;
    }
    let to = 34 + n;
    access::formed_by(r[3], &r[34..to], &by.lengths)
}

// Whether a used record of a version is good by itself.
fn used(r: &[u8], by: &Measures) -> bool
    requires { length r.now ≡ 64 }
    ensures { result ≡ usedb by.now.version r.now }
{
    if !classed(r, by) {
        return false;
    }
    if !measured(r) {
        return false;
    }
    if !name_fits(r) {
        return false;
    }
    ruled(r, by)
}

// Whether 64 bytes are a free record, or a used one that is good by itself.
fn good(r: &[u8], by: &Measures) -> bool
    requires { length r.now ≡ 64 }
    ensures { result ≡ ownb by.now.version r.now }
{
    if r[0] == 0 {
        return blank::record(r);
    }
    used(r, by)
}

// Whether the record in slot s is. Not one of `as_chunks::<64>()`: a walk over those was tried, and soundness took 1.1 times as long.
fn good_at(image: &[u8], s: usize, by: &Measures) -> bool
    requires { Within image.now s }
    ensures { result ≡ ownb by.now.version (rec_at image.now s) }
{
    let from = 16 + 64 * s;
    let to = from + 64;
    good(&image[from..to], by)
}

// Whether each record is good by itself.
pub fn records(image: &[u8], n: usize) -> bool
    requires { Sized image.now n }
    ensures { result ≡ recordsb image.now n }
{
    let by = Measures {
        version: image::fields::version(image),
        classes: rules::descriptor::classes(),
        lengths: rules::group::lengths(),
    };
    for s in 0..n {
        if !good_at(image, s, &by) {
            return false;
        }
    }
    true
}
