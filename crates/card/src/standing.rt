// Where the rule that decides on a file stands (02 Ticket 7), for a caller who wants to see it: no command, and nothing changes.
ghost use Rattle.std.specs.Prelude.{◌≡◌};
ghost use Rattle.card.specs.Ruling.{ruling_of, RulingBounded};

use crate::CardError;
use image::fields;
use referred::{Place, deciding};

// The rule of slot s of any image, whatever its bytes, and any pool; nowhere, None, if there is no file.
pub fn ruling(image: &[u8], pool: &[u8], s: usize) -> Result<Option<Place>, CardError>
    ensures { (result ≡ ruling_of image.now pool.now s) × RulingBounded result }
{
    let n = crate::slots(image, pool)?;
    if n <= s {
        return Ok(None);
    }
    if fields::kind(image, s) == image::FREE {
        return Ok(None);
    }
    Ok(deciding::place(image, pool, n, s))
}
