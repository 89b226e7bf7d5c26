// Only the searches by identifier, for whoever measures them (02 Ticket 5): as `kinship` has them, and as the plain walk that they were
// before. Both are promised the same answers, so that what is measured is time and nothing else. No card calls this.
#![tactic(auto)]

ghost use Rattle.std.specs.Prelude.{◌≡◌};
ghost use Rattle.image.specs.Layout.{count_of};
ghost use Rattle.sound.specs.Table.{view_at};
ghost use Rattle.sound.specs.Kinship.{child_named};
ghost use Rattle.kinship.specs.Search.{df_named};
ghost use Rattle.searches.specs.Told.{told_of, Slots};

use image::fields;
use kinship::search;

pub mod plain;

// What C is told where no record was found, and where the bytes are no card's.
const NOTHING: usize = 65536;

const NO_CARD: usize = 65537;

// How many records the image has, if it is as long as it says.
fn slots(image: &[u8]) -> Option<usize>
    ensures { Slots image.now result }
{
    if image.len() < 16 {
        return None;
    }
    let n = fields::count(image);
    if n < 2 {
        return None;
    }
    if 1023 < n {
        return None;
    }
    if image.len() != 16 + 64 * n {
        return None;
    }
    Some(n)
}

// The slot of the child of directory d with identifier x.
#[unsafe(no_mangle)]
pub extern "C" fn search_child(image: &[u8], d: usize, x: u16) -> usize
    ensures { result ≡ told_of image.now (child_named (count_of image.now) (view_at image.now) d x) }
{
    let Some(n) = slots(image) else {
        return NO_CARD;
    };
    search::child_named(image, n, d, x).unwrap_or(NOTHING)
}

// .. by the plain walk.
#[unsafe(no_mangle)]
pub extern "C" fn search_child_plainly(image: &[u8], d: usize, x: u16) -> usize
    ensures { result ≡ told_of image.now (child_named (count_of image.now) (view_at image.now) d x) }
{
    let Some(n) = slots(image) else {
        return NO_CARD;
    };
    plain::child_named(image, n, d, x).unwrap_or(NOTHING)
}

// The slot of the DF among the children of directory d with identifier x.
#[unsafe(no_mangle)]
pub extern "C" fn search_df(image: &[u8], d: usize, x: u16) -> usize
    ensures { result ≡ told_of image.now (df_named (count_of image.now) (view_at image.now) d x) }
{
    let Some(n) = slots(image) else {
        return NO_CARD;
    };
    search::df_named(image, n, d, x).unwrap_or(NOTHING)
}

// .. by the plain walk.
#[unsafe(no_mangle)]
pub extern "C" fn search_df_plainly(image: &[u8], d: usize, x: u16) -> usize
    ensures { result ≡ told_of image.now (df_named (count_of image.now) (view_at image.now) d x) }
{
    let Some(n) = slots(image) else {
        return NO_CARD;
    };
    plain::df_named(image, n, d, x).unwrap_or(NOTHING)
}
