// The object reader as a struct that holds the template and its place (01 "CREATE", data: "After the core stands, the
// object reader is also wanted as a struct that holds the template and its place").
//
// Thin: each method takes the struct apart and calls a function on slice and place, or puts one together.
// Callers use `object` and `after`, whose parameters are plain.
#![tactic(auto)]

ghost use Rattle.std.specs.Prelude.{◌≡◌};
ghost use Rattle.template.specs.Objects.{object_at};
ghost use Rattle.reader.specs.Places.{place_after};

use template::{Object, gather};

// A template and a place in it, where the next object stands.
#[derive(Clone, Copy)]
pub struct Reader<'a> {
    pub template: &'a [u8],
    pub place: usize,
}

// The work: where the object at a place ends; the place itself where no whole object stands there.
#[tactic(auto, unfolding(crate::specs::Places::place_after))]
pub fn end_at(s: &[u8], at: usize) -> usize
    ensures { result ≡ place_after s.now at }
{
    match gather::object_at(s, at) {
        Some(object) => object.value.end,
        None => at,
    }
}

impl<'a> Reader<'a> {
    // A reader of a template that stands at a place.
    pub fn new(template: &'a [u8], place: usize) -> Reader<'a>
        ensures { (result.template ≡ template.entry) × (result.place ≡ place) }
    {
        Reader { template, place }
    }

    // Where it stands.
    pub fn place(self) -> usize
        ensures { result ≡ self.entry.place }
    {
        self.place
    }

    // The object where it stands, if one is whole there.
    pub fn next(self) -> Option<Object>
        ensures { result ≡ object_at self.entry.template.now self.entry.place }
    {
        gather::object_at(self.template, self.place)
    }

    // The reader moved on past that object. It stays where no whole object stands.
    pub fn past(self) -> Reader<'a>
        ensures { (result.template ≡ self.entry.template) × (result.place ≡ place_after self.entry.template.now self.entry.place) }
    {
        Reader {
            place: end_at(self.template, self.place),
            ..self
        }
    }
}

// The object at a place of a template, through the reader.
pub fn object(s: &[u8], at: usize) -> Option<Object>
    ensures { result ≡ object_at s.now at }
{
    Reader::new(s, at).next()
}

// The place after the object that stands at `from`, through the reader.
pub fn after(s: &[u8], from: usize) -> usize
    ensures { result ≡ place_after s.now from }
{
    Reader::new(s, from).past().place()
}
