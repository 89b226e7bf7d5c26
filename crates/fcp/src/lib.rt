// What SELECT tells of a file (02 Ticket 2): the template 62 of its control parameters, written object by object into the buffer
// that the caller lends. The template stands in specs/Template, in the words of CREATE's own grammar; `objects` writes each of its
// objects, `answer` measures it, and writes it where it fits.
#![tactic(auto)]

pub mod answer;
pub mod objects;

// The buffer is too short for what is told, and as it came.
#[derive(Clone, Copy, Debug, PartialEq, Eq)]
pub struct TooShort;
