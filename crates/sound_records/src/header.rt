// The header: mark, version, slot count, length, zero bytes (01 "Image").
ghost use Rattle.std.specs.Prelude.{◌≡◌};
ghost use Rattle.sound.specs.Sound.{headerb};

use crate::blank;

// Whether any bytes start with a good header, whose slot count agrees with their length.
pub fn agrees(image: &[u8]) -> bool
    ensures { result ≡ headerb image.now }
{
    if image.len() < 16 {
        return false;
    }
    let n = image::fields::count(image);
    if image.len() != 16 + 64 * n {
        return false;
    }
    if n < 2 {
        return false;
    }
    if n > 1023 {
        return false;
    }
    if image[0] != 0x55 {
        return false;
    }
    if image[1] != 0x46 {
        return false;
    }
    if image[2] != 0x54 {
        return false;
    }
    if !image::version::is_known(image::fields::version(image)) {
        return false;
    }
    blank::zeros(image, 11, 5)
}
