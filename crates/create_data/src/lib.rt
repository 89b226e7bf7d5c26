// The new file that CREATE's data describe, or none where they are bad (01 "CREATE", data; 6A80), for any bytes. Which rules
// fit goes by the card's version (02 Tickets 3 and 7).
//
// `judge` judges which objects were gathered and the bytes that they point at. Every value is handed on as a part of
// the data, from the middle of it, and nothing is copied.
#![tactic(auto)]

ghost use Rattle.std.specs.Prelude.{◌≡◌};
ghost use Rattle.create_data.specs.Data.{data_of};
ghost use Rattle.create_data.specs.Good.{Good};

use judge::Sent;
use template::{Span, gather};

pub mod form;
pub mod judge;

// A new file as CREATE's data describe it: its numbers, the form of its rule, and where its name (an empty stretch for none)
// and its rule stand in the data. The size of a DF is its total; a file without records has record length 0.
#[derive(Clone, Copy)]
pub struct NewFile {
    pub descriptor: u8,
    pub identifier: u16,
    pub life: u8,
    // no enum: it is the byte that a record keeps, which `access::fits_record` takes for any byte
    pub form: u8,
    pub record_length: u16,
    pub size: u32,
    // no `Option`: a file without a name has one of no bytes, and whoever takes the name takes its bytes
    pub name: Span,
    pub rule: Span,
}

// What good data describe.
#[derive(Clone, Copy)]
pub enum Data {
    Df(NewFile),
    Ef(NewFile),
}

// CREATE's data read, for a card of version v: any bytes, from the byte after Lc to the end of the command. None where they
// are bad.
#[tactic(auto, unfolding(crate::specs::Data::data_of))]
pub fn read(s: &[u8], v: u32) -> Option<Data>
    ensures { (result ≡ data_of v s.now) × Good v s.now result }
{
    if !judge::is_template(s) {
        return None;
    }
    let sent = Sent {
        data: s,
        objects: gather::all(s),
    };
    sent.file(v)
}
