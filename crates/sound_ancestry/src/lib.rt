// Identifiers of files and of the directories above them: a file's differs from all of those (01 "Image").
//
// The identifiers of all directories are noted first, in one set, and those that two directories have in another. Only
// a file that may share its identifier with another directory walks up.
#![tactic(auto)]

ghost use Rattle.std.specs.Prelude.{◌≡◌, true, ◌+◌, ◌<◌, replicate};
ghost use Rattle.image.specs.Layout.{Sized, Within};
ghost use Rattle.sound.specs.Table.{view_at};
ghost use Rattle.sound.specs.Kin.{rootb, placedb, above_at};
ghost use Rattle.sound_ancestry.specs.Directories.{Seen, shares};

use image::fields;
use keys::Keys;
use kinship::{climb, search};
use rules::descriptor;

// The identifiers of directories: those that one has, and those that two have.
#[derive(Drop)]
pub struct Directories {
    pub once: Keys,
    pub twice: Keys,
}

impl Directories {
    // Of no directory.
    #[inline(always)]
    pub fn new() -> Self
        ensures { (result.once ≡ replicate 1024 0) × (result.twice ≡ replicate 1024 0) }
    {
        Directories {
            once: Keys::new(),
            twice: Keys::new(),
        }
    }

    // Notes the identifier of the directory in slot s: it was there already, or it is new.
    pub fn note(&mut self, image: &[u8], s: usize)
        requires within { Within image.now s }
        requires seen { Seen (view_at image.now) s self.old.once self.old.twice }
        ensures { Seen (view_at image.now) (s + 1) self.new.once self.new.twice }
    {
        if fields::kind(image, s) != descriptor::DF {
            return;
        }
        let x = fields::identifier(image, s);
        if self.once.has(x) {
            self.twice.put(x);
            return;
        }
        self.once.put(x);
    }

    // Whether s may have the identifier of a directory other than itself.
    fn may_share(&self, image: &[u8], s: usize) -> bool
        requires { Within image.now s }
        ensures { result ≡ shares (view_at image.now) s self.now.once self.now.twice }
    {
        let x = fields::identifier(image, s);
        if fields::kind(image, s) == descriptor::DF {
            return self.twice.has(x);
        }
        self.once.has(x)
    }

    // Whether s differs from the directories above it; only one that may share its identifier walks up.
    pub fn above_at(&self, image: &[u8], n: usize, s: usize) -> bool
        requires sized { Sized image.now n × (s < n) }
        requires image_value { (rootb n (view_at image.now) ≡ true) × (placedb n (view_at image.now) ≡ true) }
        requires seen { Seen (view_at image.now) n self.now.once self.now.twice }
        ensures { result ≡ above_at (view_at image.now) s }
    {
        if !search::is_file(image, s) {
            return true;
        }
        if !self.may_share(image, s) {
            return true;
        }
        let x = fields::identifier(image, s);
        let d = fields::parent(image, s);
        !climb::named_up(image, n, x, d)
    }
}
