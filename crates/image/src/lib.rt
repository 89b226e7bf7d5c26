// The card image in its lent buffer: the header, the records and their fields, read and written. It answers 01
// "Image", the two tables, and what 02 Tickets 3 and 4 lay down by version: where each field stands, and what a write leaves of the
// other bytes. What makes an image sound is the matter of the crates above.
#![tactic(auto)]

pub mod fields;
pub mod kin;
pub mod version;
pub mod write;

// The kind of a free record; what stands in the place of the current EF where there is none, as it is written and as a slot. No enum and
// no Option: any bytes are read, and these are what stands there (`fields::kind`, `fields::current_ef`).
pub const FREE: u8 = 0;

pub const NONE: u16 = 0xFFFF;

pub const NO_SLOT: usize = 0xFFFF;

// The numbers of a record, in the order of its bytes.
#[derive(Clone, Copy)]
pub struct Head {
    pub kind: u8,
    pub descriptor: u8,
    pub life: u8,
    pub form: u8,
    pub identifier: u16,
    pub parent: u16,
    pub level: u16,
    pub record_length: u16,
    pub size: u32,
}
