// What is current: a DF, and none or a child EF of it (01 "Image").
ghost use Rattle.std.specs.Prelude.{◌≡◌};
ghost use Rattle.image.specs.Layout.{Sized, current_df_of, current_ef_of};
ghost use Rattle.sound.specs.Table.{view_at};
ghost use Rattle.sound.specs.Sound.{currentb};

use rules::descriptor;

// Whether the current DF slot holds a DF, and the current EF, if any, is its child EF.
pub fn stands(image: &[u8], n: usize) -> bool
    requires { Sized image.now n }
    ensures { result ≡ currentb n (view_at image.now) (current_df_of image.now) (current_ef_of image.now) }
{
    let df = image::fields::current_df(image);
    if df >= n {
        return false;
    }
    if image::fields::kind(image, df) != descriptor::DF {
        return false;
    }
    let ef = image::fields::current_ef(image);
    if ef == image::NO_SLOT {
        return true;
    }
    if ef >= n {
        return false;
    }
    if image::fields::kind(image, ef) != descriptor::EF {
        return false;
    }
    image::fields::parent(image, ef) == df
}
