// The fields of the header and of record s, read in the image (01 "Image", the two tables).
ghost use Rattle.std.specs.Prelude.{◌≡◌, ◌+◌, ◌*◌, ◌<◌, ◌≤◌, length, get_or};
ghost use Rattle.image.specs.Layout.{version_of, count_of, current_df_of, current_ef_of, Within, rec_at, kind_of, descriptor_of};
ghost use Rattle.image.specs.Layout.{life_cycle_of, form_of};
ghost use Rattle.image.specs.Layout.{identifier_of, parent_of, level_of, record_length_of, size_of, start_of, field_at, name_of, rule_of};

// The version.
#[tactic(auto, unfolding(crate::specs::Layout::version_of))]
pub fn version(image: &[u8]) -> u32
    requires { 16 ≤ length image.now }
    ensures { result ≡ version_of image.now }
{
    u32::from(numbers::u16_at(image, 3))
}

// The slot count N.
#[tactic(auto, unfolding(crate::specs::Layout::count_of))]
pub fn count(image: &[u8]) -> usize
    requires { 16 ≤ length image.now }
    ensures { (result ≡ count_of image.now) × (result < 65536) }
{
    usize::from(numbers::u16_at(image, 5))
}

#[tactic(auto, unfolding(crate::specs::Layout::current_df_of))]
pub fn current_df(image: &[u8]) -> usize
    requires { 16 ≤ length image.now }
    ensures { (result ≡ current_df_of image.now) × (result < 65536) }
{
    usize::from(numbers::u16_at(image, 7))
}

// The current EF slot, FFFF for none: no Option, since the answer is the number that stands there (`current_ef_of`), sound or not.
#[tactic(auto, unfolding(crate::specs::Layout::current_ef_of))]
pub fn current_ef(image: &[u8]) -> usize
    requires { 16 ≤ length image.now }
    ensures { (result ≡ current_ef_of image.now) × (result < 65536) }
{
    usize::from(numbers::u16_at(image, 9))
}

pub fn kind(image: &[u8], s: usize) -> u8
    requires { Within image.now s }
    ensures { result ≡ kind_of (rec_at image.now s) }
{
    image[16 + 64 * s]
}

pub fn descriptor(image: &[u8], s: usize) -> u8
    requires { Within image.now s }
    ensures { result ≡ descriptor_of (rec_at image.now s) }
{
    image[16 + 64 * s + 1]
}

pub fn life_cycle(image: &[u8], s: usize) -> u8
    requires { Within image.now s }
    ensures { result ≡ life_cycle_of (rec_at image.now s) }
{
    image[16 + 64 * s + 2]
}

// The form of the rule.
pub fn form(image: &[u8], s: usize) -> u8
    requires { Within image.now s }
    ensures { result ≡ form_of (rec_at image.now s) }
{
    image[16 + 64 * s + 3]
}

pub fn identifier(image: &[u8], s: usize) -> u16
    requires { Within image.now s }
    ensures { result ≡ identifier_of (rec_at image.now s) }
{
    numbers::u16_at(image, 16 + 64 * s + 4)
}

// The parent slot.
pub fn parent(image: &[u8], s: usize) -> usize
    requires { Within image.now s }
    ensures { (result ≡ parent_of (rec_at image.now s)) × (result < 65536) }
{
    usize::from(numbers::u16_at(image, 16 + 64 * s + 6))
}

pub fn level(image: &[u8], s: usize) -> usize
    requires { Within image.now s }
    ensures { (result ≡ level_of (rec_at image.now s)) × (result < 65536) }
{
    usize::from(numbers::u16_at(image, 16 + 64 * s + 8))
}

pub fn record_length(image: &[u8], s: usize) -> u16
    requires { Within image.now s }
    ensures { result ≡ record_length_of (rec_at image.now s) }
{
    numbers::u16_at(image, 16 + 64 * s + 10)
}

// The size, in a width that holds a sum over all records.
pub fn size(image: &[u8], s: usize) -> u64
    requires { Within image.now s }
    ensures { (result ≡ size_of (rec_at image.now s)) × (result < 4294967296) }
{
    u64::from(numbers::u32_at(image, 16 + 64 * s + 12))
}

// Where the body starts, in the pool.
pub fn start(image: &[u8], s: usize) -> usize
    requires { Within image.now s }
    ensures { (result ≡ start_of (rec_at image.now s)) × (result < 65536) }
{
    usize::from(numbers::u16_at(image, 16 + 64 * s + 62))
}

// The 64 bytes of record s, as a part of the image.
pub fn record(image: &[u8], s: usize) -> &[u8]
    requires { Within image.now s }
    ensures { result.now ≡ rec_at image.now s }
{
    let from = 16 + 64 * s;
    let to = from + 64;
    &image[from..to]
}

// The field of record s at k, as a part of the image: a length, and so many bytes after it, within the record.
fn field(image: &[u8], s: usize, k: usize) -> &[u8]
    requires within { Within image.now s × (k ≤ 33) }
    requires k_bound { get_or (rec_at image.now s) k 0 ≤ 30 }
    ensures { result.now ≡ field_at (rec_at image.now s) k }
{
    let at = 16 + 64 * s;
    let n = usize::from(image[at + k]);
    let from = at + (k + 1);
    let to = from + n;
    &image[from..to]
}

// The name of record s.
#[tactic(auto, unfolding(crate::specs::Layout::name_of))]
pub fn name(image: &[u8], s: usize) -> &[u8]
    requires { Within image.now s × (get_or (rec_at image.now s) 16 0 ≤ 16) }
    ensures { result.now ≡ name_of (rec_at image.now s) }
{
    field(image, s, 16)
}

// The rule of record s.
#[tactic(auto, unfolding(crate::specs::Layout::rule_of))]
pub fn rule(image: &[u8], s: usize) -> &[u8]
    requires { Within image.now s × (get_or (rec_at image.now s) 33 0 ≤ 30) }
    ensures { result.now ≡ rule_of (rec_at image.now s) }
{
    field(image, s, 33)
}
