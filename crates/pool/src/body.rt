// Where the body of a record lies (02 Ticket 4): its start and its size, both read from the record.
ghost use Rattle.std.specs.Prelude.{◌≡◌, ◌<◌};
ghost use Rattle.image.specs.Layout.{Within};
ghost use Rattle.pool.specs.Bodies.{start_at, body_at};

use image::{fields, version};
use rules::descriptor;

// The byte of the pool at which the body of record s starts.
pub fn start(image: &[u8], s: usize) -> usize
    requires { Within image.now s }
    ensures { (result ≡ start_at image.now s) × (result < 65536) }
{
    fields::start(image, s)
}

// How many bytes of the pool the body of record s has; 0 where it has none.
pub fn size(image: &[u8], s: usize) -> usize
    requires { Within image.now s }
    ensures { (result ≡ body_at image.now s) × (result < 4294967296) }
{
    if !version::has_bodies(fields::version(image)) {
        return 0;
    }
    if fields::kind(image, s) != descriptor::EF {
        return 0;
    }
    fields::size(image, s) as usize
}
