// The maker of fresh images and the report (01 "Making and reporting").
//
// Both calls take any bytes. An answer is a Result or an Option; specs/ gives 01's number and values for each of its cases.
#![tactic(auto)]

pub mod fresh;
pub mod report;

// Which card is made: the version of its image.
#[derive(Clone, Copy)]
pub struct Edition {
    pub version: u32,
}

// Why the maker refuses, with 01's number of that answer; a version that is not known is answered like a length that no image has.
#[derive(Clone, Copy, Debug, PartialEq, Eq)]
pub enum MakeError {
    BadLength = 2,
    BadTotal = 3,
    BadRule = 4,
}

// The numbers of the report: the current DF's total, its room, its direct children, all files beneath it.
#[derive(Clone, Copy)]
pub struct Figures {
    pub total: u32,
    pub room: u32,
    pub children: u32,
    pub beneath: u32,
}
