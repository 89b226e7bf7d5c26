// CREATE's data (01 "CREATE", data): a template 62 of data objects.
//
// `gather` notes which objects of 01's list stand in the template and where, as one value that judges nothing; `value`
// reads a value. What the whole must obey is judged above, in `create_data`.
#![tactic(auto)]

pub mod gather;
pub mod value;

// One data object at a place: its tag, and where its value stands.
#[derive(Clone, Copy)]
pub struct Object {
    pub tag: u8,
    pub value: Span,
}

// The objects that a template holds, by their number in 01's list: where the value of each stands, if it is there;
// and the place after the last.
#[derive(Clone, Copy)]
pub struct Objects {
    pub values: [Option<Span>; 12],
    pub next: usize,
}

// A stretch of CREATE's data, where a value stands: from start to end.
#[derive(Clone, Copy)]
pub struct Span {
    pub start: usize,
    pub end: usize,
}
