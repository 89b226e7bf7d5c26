// The values of single objects, each read from its own part of the data, for any bytes (01 "CREATE").
// A value of another length is 0 and no `None`: so the contracts have it (`pair_of`, `number_of`), and the length is judged above.
ghost use Rattle.std.specs.Prelude.{◌≡◌};
ghost use Rattle.template.specs.Values.{first_of, pair_of, record_length_of, number_of, fits_name};

use numbers::{u16_at, u32_at};

// The first byte; 0 where there is none.
pub fn first(v: &[u8]) -> u8
    ensures { result ≡ first_of v.now }
{
    v.first().copied().unwrap_or(0)
}

// The 16-bit number in two bytes; 0 for any other length.
#[tactic(auto, unfolding(crate::specs::Values::pair_of))]
pub fn pair(v: &[u8]) -> u16
    ensures { result ≡ pair_of v.now }
{
    if v.len() == 2 { u16_at(v, 0) } else { 0 }
}

// The record length in the four bytes of 82; 0 for any other length.
#[tactic(auto, unfolding(crate::specs::Values::record_length_of))]
pub fn record_length(v: &[u8]) -> u16
    ensures { result ≡ record_length_of v.now }
{
    if v.len() == 4 { u16_at(v, 2) } else { 0 }
}

// A size in two to four bytes; 0 for any other length.
#[tactic(auto, unfolding(crate::specs::Values::number_of))]
pub fn number(v: &[u8]) -> u32
    ensures { result ≡ number_of v.now }
{
    match v.len() {
        2 => u32::from(u16_at(v, 0)),
        3 => u32::from(v[0]) * 65536 + u32::from(u16_at(v, 1)),
        4 => u32_at(v, 0),
        _ => 0,
    }
}

// Whether a name has 1 to 16 bytes.
#[tactic(auto, unfolding(crate::specs::Values::fits_name))]
pub fn fits_name(v: &[u8]) -> bool
    ensures { result ≡ fits_name v.now }
{
    1 <= v.len() && v.len() <= 16
}
