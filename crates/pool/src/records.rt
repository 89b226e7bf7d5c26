// The records of a body: which numbers there are.
ghost use Rattle.std.specs.Prelude.{◌≡◌, ◌<◌};
ghost use Rattle.image.specs.Layout.{Within};
ghost use Rattle.pool.specs.Records.{has_record};

use image::fields;

// Whether the file in slot t has a record of number i.
pub fn has_record(image: &[u8], t: usize, i: usize) -> bool
    requires { Within image.now t × (i < 256) }
    ensures { result ≡ has_record image.now t i }
{
    if i == 0 {
        return false;
    }
    let length = fields::record_length(image, t) as usize;
    i * length <= fields::size(image, t) as usize
}
