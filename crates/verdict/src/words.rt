// The status words of 01 and 02 by their names, the same as in specs/Words. Numbers, not an enum: C answers them as they stand in the
// documents, and `all_steps` (card/specs/Steps) has 0000 among them, a step without a word, which an enum of words could not hold.
pub const DONE: u16 = 0x9000;

pub const FILE_DEACTIVATED: u16 = 0x6283;

pub const FILE_TERMINATED: u16 = 0x6285;

pub const WRONG_LENGTH: u16 = 0x6700;

pub const WRONG_STRUCTURE: u16 = 0x6981;

pub const SECURITY_NOT_SATISFIED: u16 = 0x6982;

pub const CONDITIONS_NOT_SATISFIED: u16 = 0x6985;

pub const NOT_ALLOWED: u16 = 0x6986;

pub const WRONG_DATA: u16 = 0x6A80;

pub const NOT_FOUND: u16 = 0x6A82;

pub const NO_SUCH_RECORD: u16 = 0x6A83;

pub const NOT_ENOUGH_MEMORY: u16 = 0x6A84;

pub const IDENTIFIER_EXISTS: u16 = 0x6A89;

pub const NAME_EXISTS: u16 = 0x6A8A;

pub const WRONG_PARAMETERS: u16 = 0x6B00;

pub const WRONG_INSTRUCTION: u16 = 0x6D00;

pub const WRONG_CLASS: u16 = 0x6E00;
