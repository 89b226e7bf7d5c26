// File bodies in a pool (02 Ticket 4), their moving down and the count of bytes moved (Ticket 8): where a body lies, that all lie in the
// pool, apart, room for a new one, and what is wiped with one that goes. It may use laws, keys, numbers, rules, image. What a sound image
// says of them, and which command reads or writes a body, is the matter of the crates above.
//
// All is over two numbers for each slot, where its body starts and how many bytes it has; both stand in the record.
#![tactic(auto)]

pub mod body;
pub mod gap;
pub mod index;
pub mod laid;
pub mod moving;
pub mod placing;
pub mod records;
pub mod stretch;
pub mod wipe;

// Where a new body starts, and how many bytes were moved for it.
#[derive(Clone, Copy)]
pub struct Room {
    pub start: usize,
    pub moved: usize,
}

// What lies ahead of a byte of the pool: no body starts before `end`; there starts that of slot `next`, or, where there is none,
// the cell or the pool ends.
#[derive(Clone, Copy)]
pub struct Ahead {
    pub end: usize,
    pub next: Option<usize>,
}
