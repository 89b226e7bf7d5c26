// The maker: a fresh image in a lent buffer of any length, or the buffer as it came (01 "Making and
// reporting", 02 Ticket 3).
ghost use Rattle.std.specs.Prelude.{◌≡◌, true, false, ◌<◌, ◌≤◌, length, MatchResult};
ghost use Rattle.laws.specs.Lists.{splice};
ghost use Rattle.image.specs.Layout.{Sized, longest_rule};
ghost use Rattle.access.specs.Access.{fits_record};
ghost use Rattle.sound.specs.Effects.{fresh_header, fresh};
ghost use Rattle.maker.specs.declared.MakeError.TheVariants.{BadLength, BadTotal, BadRule};
ghost use Rattle.maker.specs.Making.{slots_in, fits_buffer, fits_total, MakerPromises};

use crate::{Edition, MakeError};
use image::Head;
use rules::{descriptor, life_cycle};

// The number of slots that so many bytes may have.
fn slots_in(long: usize) -> usize
    ensures { result ≡ slots_in long }
{
    long.saturating_sub(16) / 64
}

// The number of slots of a card of that edition in so many bytes: a header and 2 to 1,023 records.
fn slots_of(long: usize, e: Edition) -> Result<usize, MakeError>
    ensures { MatchResult result (λ n. (fits_buffer long e ≡ true) × (n ≡ slots_in long))
        (λ d. (fits_buffer long e ≡ false) × (d ≡ BadLength)) }
{
    let n = slots_in(long);
    if n < 2 || 1023 < n || long != 16 + 64 * n || !image::version::is_known(e.version) {
        return Err(MakeError::BadLength);
    }
    Ok(n)
}

// Whether n slots can hold that total.
fn check_total(n: usize, total: u32) -> Result<(), MakeError>
    requires { (2 ≤ n) × (n ≤ 1023) }
    ensures { MatchResult result (λ _. fits_total n total ≡ true)
        (λ d. (fits_total n total ≡ false) × (d ≡ BadTotal)) }
{
    if total < 1 || 64 * (n - 1) < total as usize {
        return Err(MakeError::BadTotal);
    }
    Ok(())
}

// The form of a rule that fits a record, as its byte. A form stays a number: `hull_make` takes any, and one that no byte holds is none.
fn form_of(v: u32, form: u32, rule: &[u8]) -> Result<u8, MakeError>
    ensures { MatchResult result (λ b. (fits_record v form rule.now ≡ true) × (b ≡ form))
        (λ d. (fits_record v form rule.now ≡ false) × (d ≡ BadRule)) }
{
    let Ok(byte) = u8::try_from(form) else {
        return Err(MakeError::BadRule);
    };
    if !access::fits_record(v, byte, rule) {
        return Err(MakeError::BadRule);
    }
    Ok(byte)
}

// The header of a fresh card of a version and n slots.
fn put_header(image: &mut [u8], v: u16, n: u16)
    requires { 16 ≤ length image.old }
    ensures { image.new ≡ splice image.old 0 (fresh_header v n) }
{
    numbers::put8(image, 0, 0x55);
    numbers::put8(image, 1, 0x46);
    numbers::put8(image, 2, 0x54);
    numbers::put16(image, 3, v);
    numbers::put16(image, 5, n);
    numbers::put16(image, 7, 0);
    numbers::put16(image, 9, image::NONE);
    numbers::zero_out(image, 11, 5);
}

// The header, the root, and free records after it: every byte of the buffer.
fn put_fresh(image: &mut [u8], v: u32, n: usize, total: u32, form: u8, rule: &[u8])
    requires { Sized image.old n × ((length rule.now ≤ longest_rule v) × (v < 65536)) }
    ensures { image.new ≡ fresh v n total form rule.now }
{
    let name = &rule[0..0];
    let root = Head {
        kind: descriptor::DF,
        descriptor: 0x38,
        life: life_cycle::ACTIVATED_BYTE,
        form,
        identifier: 0x3F00,
        parent: 0,
        level: 0,
        record_length: 0,
        size: total,
    };
    put_header(image, v as u16, n as u16);
    image::write::put_record(image, v, 0, root, name, rule);
    numbers::zero_out(image, 80, 64 * (n - 1));
}

// Makes a fresh image of a buffer: a card of that edition, with a root of that total and rule.
pub fn make(
    image: &mut [u8],
    edition: Edition,
    total: u32,
    form: u32,
    rule: &[u8],
) -> Result<(), MakeError>
    ensures { MakerPromises image.old edition total form rule.now result image.new }
{
    let n = slots_of(image.len(), edition)?;
    check_total(n, total)?;
    let form = form_of(edition.version, form, rule)?;
    put_fresh(image, edition.version, n, total, form, rule);
    Ok(())
}
