// Places, identifiers and charges of all records in two walks (01 "Image": parents and levels, siblings, directories
// above, sums over children).
//
// The first walk asks what needs nothing known, and gathers the identifiers of directories and what each directory's
// children cost; the second asks what needs these. Each record is asked twice.
#![tactic(auto)]

ghost use Rattle.std.specs.Prelude.{◌≡◌, ℕ, true, ◌+◌, ◌<◌};
ghost use Rattle.laws.specs.Walks.{all_below};
ghost use Rattle.image.specs.Layout.{Sized};
ghost use Rattle.sound.specs.Table.{View, view_at, is_file};
ghost use Rattle.sound.specs.Kin.{rootb, placed_at, placedb};
ghost use Rattle.sound_links.specs.Linked.{first_at, second_at, linkedb};
ghost use Rattle.sound_links.specs.Gathers.{Gathers};

use keys::Keys;
use rules::descriptor;
use sound_ancestry::Directories;

// Whether s, if it is a file, has as parent a DF with level one less.
fn placed_at(image: &[u8], n: usize, s: usize) -> bool
    requires { Sized image.now n × (s < n) }
    ensures { result ≡ placed_at n (view_at image.now) s }
{
    if !kinship::search::is_file(image, s) {
        return true;
    }
    let p = image::fields::parent(image, s);
    if p >= n {
        return false;
    }
    if image::fields::kind(image, p) != descriptor::DF {
        return false;
    }
    image::fields::level(image, s) == image::fields::level(image, p) + 1
}

// What the first walk gathers of the records before a slot: siblings' keys, directories' identifiers, and what its children cost each.
#[derive(Drop)]
struct Gathered {
    siblings: Keys,
    directories: Directories,
    sums: [u64; 1023],
}

impl Gathered {
    // Of no record.
    #[inline(always)]
    fn new() -> Self
        ensures { (v : ℕ → View) → Gathers v 0 result }
    {
        Gathered {
            siblings: Keys::new(),
            directories: Directories::new(),
            sums: [0; 1023],
        }
    }

    // The first walk at slot s.
    fn first_at(&mut self, image: &[u8], n: usize, s: usize) -> bool
        requires sized { Sized image.now n × (s < n) }
        requires gathered { Gathers (view_at image.now) s self.old }
        ensures value { result ≡ first_at n (view_at image.now) s }
        ensures gathered_2 { Gathers (view_at image.now) (s + 1) self.new }
    {
        self.directories.note(image, s);
        sound_charges::add_cost(&mut self.sums, image, s);
        if !sound_siblings::alone(&mut self.siblings, image, n, s) {
            return false;
        }
        placed_at(image, n, s)
    }

    // The second walk at slot s.
    fn second_at(&self, image: &[u8], n: usize, s: usize) -> bool
        requires sized { Sized image.now n × (s < n) }
        requires image_value { (rootb n (view_at image.now) ≡ true) × (placedb n (view_at image.now) ≡ true) }
        requires gathered { Gathers (view_at image.now) n self.now }
        ensures { result ≡ second_at n (view_at image.now) s }
    {
        if !sound_charges::covered_at(image, n, s, self.sums[s]) {
            return false;
        }
        self.directories.above_at(image, n, s)
    }

    // The second walk.
    fn second(&self, image: &[u8], n: usize) -> bool
        requires sized { Sized image.now n }
        requires image_value { (rootb n (view_at image.now) ≡ true) × (placedb n (view_at image.now) ≡ true) }
        requires gathered { Gathers (view_at image.now) n self.now }
        ensures { result ≡ all_below n (second_at n (view_at image.now)) }
    {
        for s in 0..n {
            if !self.second_at(image, n, s) {
                return false;
            }
        }
        true
    }
}

// Whether places, identifiers and charges of all records are good.
pub fn linked(image: &[u8], n: usize) -> bool
    requires sized { Sized image.now n }
    requires image_value { rootb n (view_at image.now) ≡ true }
    ensures { result ≡ linkedb n (view_at image.now) }
{
    let mut gathered = Gathered::new();
    for s in 0..n {
        if !gathered.first_at(image, n, s) {
            return false;
        }
    }
    gathered.second(image, n)
}
