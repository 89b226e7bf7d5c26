// The report (01 "Making and reporting"): four numbers of a sound image, whose current DF they are about.
ghost use Rattle.std.specs.Prelude.{◌≡◌};
ghost use Rattle.image.specs.Layout.{Sized, count_of};
ghost use Rattle.sound.specs.Sound.{Sound};
ghost use Rattle.maker.specs.Reporting.{figures_of, ReportPromises};

use crate::Figures;

// The numbers of a sound image of n slots.
fn figures(image: &[u8], n: usize) -> Figures
    requires sized { Sized image.now n × (n ≡ count_of image.now) }
    requires sound { Sound image.now }
    ensures { result ≡ figures_of image.now }
{
    let d = image::fields::current_df(image);
    let total = image::fields::size(image, d) as u32;
    let room = kinship::room::room(image, n, d) as u32;
    let children = kinship::count::children(image, n, d);
    let beneath = subtree::beneath(image, n, d);
    Figures {
        total,
        room,
        children,
        beneath,
    }
}

// Reports on any bytes: the numbers of a sound image, None for any other.
pub fn report(image: &[u8]) -> Option<Figures>
    ensures { ReportPromises image.now result }
{
    if !sound_test::sound(image) {
        return None;
    }
    let n = image::fields::count(image);
    Some(figures(image, n))
}
