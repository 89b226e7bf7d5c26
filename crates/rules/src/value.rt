// What an identifier and a record length must obey, in CREATE's data and in a record alike (01 "Image":
// the identifier isn't 3FFF, 7FFF or FFFF; 01 "CREATE": record length, multiple, 1 to 254 records).
ghost use Rattle.std.specs.Prelude.{◌≡◌};
ghost use Rattle.rules.specs.Value.{good_identifier, whole_records, good_length};

use crate::descriptor;

// Whether a file may have the identifier.
#[tactic(auto, unfolding(crate::specs::Value::good_identifier))]
pub fn good_identifier(x: u16) -> bool
    ensures { result ≡ good_identifier x }
{
    // what nearly every identifier says with its low byte
    if x % 256 != 0xFF {
        return true;
    }
    !matches!(x, 0x3FFF | 0x7FFF | 0xFFFF)
}

// Whether a body of `size` bytes is 1 to 254 whole records of `length` bytes.
#[tactic(auto, unfolding(crate::specs::Value::whole_records))]
pub fn whole_records(length: u16, size: u32) -> bool
    ensures { result ≡ whole_records length size }
{
    if !matches!(length, 1..=255) {
        return false;
    }
    let each = u32::from(length);
    size % each == 0 && matches!(size / each, 1..=254)
}

// Whether the record length suits descriptor and size: 0 where the structure has no records.
#[tactic(auto, unfolding(crate::specs::Value::good_length, laws::specs::Tests::either))]
pub fn good_length(descriptor: u8, length: u16, size: u32) -> bool
    ensures { result ≡ good_length descriptor length size }
{
    if descriptor::has_records(descriptor) {
        whole_records(length, size)
    } else {
        length == 0
    }
}
