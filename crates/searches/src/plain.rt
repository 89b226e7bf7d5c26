// The searches as they were before 02 Ticket 5: each record is asked whether it holds a file (the search for a DF: whether it is one), then
// for its parent, then for its identifier. They stand here to be measured beside those of `kinship`.
ghost use Rattle.std.specs.Prelude.{◌≡◌};
ghost use Rattle.image.specs.Layout.{Sized, Within};
ghost use Rattle.sound.specs.Table.{view_at};
ghost use Rattle.sound.specs.Kinship.{is_child, is_child_named, child_named};
ghost use Rattle.kinship.specs.Search.{is_df_named, df_named};

use image::fields;
use kinship::search;
use rules::descriptor;

// A child of directory d.
fn is_child(image: &[u8], d: usize, s: usize) -> bool
    requires { Within image.now s }
    ensures { result ≡ is_child (view_at image.now) d s }
{
    if !search::is_file(image, s) {
        return false;
    }
    fields::parent(image, s) == d
}

// .. with identifier x.
fn is_child_named(image: &[u8], d: usize, x: u16, s: usize) -> bool
    requires { Within image.now s }
    ensures { result ≡ is_child_named (view_at image.now) d x s }
{
    if !is_child(image, d, s) {
        return false;
    }
    fields::identifier(image, s) == x
}

// The child of directory d with identifier x.
pub fn child_named(image: &[u8], n: usize, d: usize, x: u16) -> Option<usize>
    requires { Sized image.now n }
    ensures { result ≡ child_named n (view_at image.now) d x }
{
    (0..n).find(|s| is_child_named(image, d, x, *s))
}

fn is_df_named(image: &[u8], d: usize, x: u16, s: usize) -> bool
    requires { Within image.now s }
    ensures { result ≡ is_df_named (view_at image.now) d x s }
{
    if fields::kind(image, s) != descriptor::DF {
        return false;
    }
    is_child_named(image, d, x, s)
}

// The DF among the children of directory d with identifier x.
pub fn df_named(image: &[u8], n: usize, d: usize, x: u16) -> Option<usize>
    requires { Sized image.now n }
    ensures { result ≡ df_named n (view_at image.now) d x }
{
    (0..n).find(|s| is_df_named(image, d, x, *s))
}
