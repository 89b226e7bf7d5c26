// The root in slot 0 (01 "Image").
ghost use Rattle.std.specs.Prelude.{◌≡◌};
ghost use Rattle.image.specs.Layout.{Sized};
ghost use Rattle.sound.specs.Table.{view_at};
ghost use Rattle.sound.specs.Kin.{rootb};

use rules::descriptor;

// Whether slot 0 is a DF, 3F00, parent 0, level 0, with a total that the slots can hold.
pub fn stands(image: &[u8], n: usize) -> bool
    requires { Sized image.now n }
    ensures { result ≡ rootb n (view_at image.now) }
{
    if image::fields::kind(image, 0) != descriptor::DF {
        return false;
    }
    if image::fields::identifier(image, 0) != 0x3F00 {
        return false;
    }
    if image::fields::parent(image, 0) != 0 {
        return false;
    }
    if image::fields::level(image, 0) != 0 {
        return false;
    }
    let most = 64 * (n - 1);
    image::fields::size(image, 0) <= most as u64
}
