// The writes into an image: a whole record, a free one, a life-cycle byte, a start, what is current (01 "Image"). Each
// leaves every byte that it does not name.
ghost use Rattle.std.specs.Prelude.{◌≡◌, ◌+◌, ◌*◌, ◌<◌, ◌≤◌, length};
ghost use Rattle.laws.specs.Lists.{splice};
ghost use Rattle.image.specs.Layout.{Within, longest_rule, field, head_bytes, record_bytes, put_record, clear_record, set_life};
ghost use Rattle.image.specs.Layout.{set_current};
ghost use Rattle.image.specs.Layout.{set_start};

use crate::{Head, version};

// The first 16 bytes of a record.
fn put_head(image: &mut [u8], at: usize, h: Head)
    requires { at + 16 ≤ length image.old }
    ensures { image.new ≡ splice image.old at (head_bytes h) }
{
    numbers::put8(image, at, h.kind);
    numbers::put8(image, at + 1, h.descriptor);
    numbers::put8(image, at + 2, h.life);
    numbers::put8(image, at + 3, h.form);
    numbers::put16(image, at + 4, h.identifier);
    numbers::put16(image, at + 6, h.parent);
    numbers::put16(image, at + 8, h.level);
    numbers::put16(image, at + 10, h.record_length);
    numbers::put32(image, at + 12, h.size);
}

// A length and so many bytes, zero-padded to `most`.
fn put_field(image: &mut [u8], at: usize, v: &[u8], most: usize)
    requires { (at + 1 + most ≤ length image.old) × ((length v.now ≤ most) × (most ≤ 30)) }
    ensures { image.new ≡ splice image.old at (field most v.now) }
{
    let n = v.len();
    numbers::put8(image, at, n as u8);
    numbers::copy_in(image, at + 1, v);
    numbers::zero_out(image, at + 1 + n, most - n);
}

// Record s, whole, as the version lays it down.
pub fn put_record(image: &mut [u8], v: u32, s: usize, h: Head, name: &[u8], rule: &[u8])
    requires { Within image.old s × ((length name.now ≤ 16) × (length rule.now ≤ longest_rule v)) }
    ensures { image.new ≡ put_record image.old s (record_bytes v h name.now rule.now) }
{
    let at = 16 + 64 * s;
    let most = version::longest_rule(v);
    put_head(image, at, h);
    put_field(image, at + 16, name, 16);
    put_field(image, at + 33, rule, most);
    numbers::zero_out(image, at + 34 + most, 30 - most);
}

// Record s becomes a free one.
#[tactic(auto, unfolding(crate::specs::Layout::put_record))]
pub fn clear_record(image: &mut [u8], s: usize)
    requires { Within image.old s }
    ensures { image.new ≡ clear_record image.old s }
{
    numbers::zero_out(image, 16 + 64 * s, 64);
}

// Another life-cycle byte for record s.
#[tactic(auto, unfolding(crate::specs::Layout::set_life))]
pub fn set_life(image: &mut [u8], s: usize, life: u8)
    requires { Within image.old s }
    ensures { image.new ≡ set_life image.old s life }
{
    numbers::put8(image, 16 + 64 * s + 2, life);
}

// Another start for the body of record s.
#[tactic(auto, unfolding(crate::specs::Layout::set_start))]
pub fn set_start(image: &mut [u8], s: usize, to: usize)
    requires { Within image.old s × (to < 65536) }
    ensures { image.new ≡ set_start image.old s to }
{
    numbers::put16(image, 16 + 64 * s + 62, to as u16);
}

// Another current DF, another current EF.
pub fn set_current(image: &mut [u8], df: u16, ef: u16)
    requires { 16 ≤ length image.old }
    ensures { image.new ≡ set_current image.old df ef }
{
    numbers::put16(image, 7, df);
    numbers::put16(image, 9, ef);
}
