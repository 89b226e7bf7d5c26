// The file descriptor byte (01, Table 7): its class by one table of all 256 bytes, and whether its
// structure has records.
ghost use Rattle.std.specs.Prelude.{◌≡◌};
ghost use Rattle.rules.specs.Descriptor.{class_of, Classes, has_records};

// The classes, by the numbers of a record's kind. No enum: a record may hold any byte there, and `kind` of `image` asks for no less;
// soundness compares that byte with the table's in one look.
pub const NEITHER: u8 = 0;

pub const DF: u8 = 1;

pub const EF: u8 = 2;

// The class of each descriptor byte.
const CLASS: [u8; 256] = [
    0, 2, 2, 0, 0, 0, 2, 0, 0, 2, 2, 0, 0, 0, 2, 0, // 00 working EFs, 08 internal EFs
    0, 0, 0, 0, 0, 0, 0, 0, 0, 0, 0, 0, 0, 0, 0, 0, // 10
    0, 0, 0, 0, 0, 0, 0, 0, 0, 0, 0, 0, 0, 0, 0, 0, // 20
    0, 0, 0, 0, 0, 0, 0, 0, 1, 0, 0, 0, 0, 0, 0, 0, // 30, 38 the DF
    0, 2, 2, 0, 0, 0, 2, 0, 0, 2, 2, 0, 0, 0, 2, 0, // 40 to 7F: as above, shareable
    0, 0, 0, 0, 0, 0, 0, 0, 0, 0, 0, 0, 0, 0, 0, 0, // 50
    0, 0, 0, 0, 0, 0, 0, 0, 0, 0, 0, 0, 0, 0, 0, 0, // 60
    0, 0, 0, 0, 0, 0, 0, 0, 1, 0, 0, 0, 0, 0, 0, 0, // 70
    0, 0, 0, 0, 0, 0, 0, 0, 0, 0, 0, 0, 0, 0, 0, 0, // 80 to FF: b8 is set
    0, 0, 0, 0, 0, 0, 0, 0, 0, 0, 0, 0, 0, 0, 0, 0, // 90
    0, 0, 0, 0, 0, 0, 0, 0, 0, 0, 0, 0, 0, 0, 0, 0, // A0
    0, 0, 0, 0, 0, 0, 0, 0, 0, 0, 0, 0, 0, 0, 0, 0, // B0
    0, 0, 0, 0, 0, 0, 0, 0, 0, 0, 0, 0, 0, 0, 0, 0, // C0
    0, 0, 0, 0, 0, 0, 0, 0, 0, 0, 0, 0, 0, 0, 0, 0, // D0
    0, 0, 0, 0, 0, 0, 0, 0, 0, 0, 0, 0, 0, 0, 0, 0, // E0
    0, 0, 0, 0, 0, 0, 0, 0, 0, 0, 0, 0, 0, 0, 0, 0, // F0
];

// The table, right at each of its entries by one test; for a caller that asks often and lends it, since it is built again
// at each use.
pub fn classes() -> [u8; 256]
    ensures { Classes result }
{
    CLASS
}

// The class of a byte.
pub fn class(d: u8) -> u8
    ensures { result ≡ class_of d }
{
    classes()[usize::from(d)]
}

// Whether the structure is linear fixed or cyclic.
#[tactic(auto, unfolding(crate::specs::Descriptor::has_records))]
pub fn has_records(d: u8) -> bool
    ensures { result ≡ has_records d }
{
    matches!(d % 8, 2 | 6)
}
