// The way up from a file, step by step to the parent slot: is something terminated there, has something an
// identifier (01 "CREATE" steps K and L, "DELETE", all life-cycle commands).
ghost use Rattle.std.specs.Prelude.{◌≡◌, ℕ};
ghost use Rattle.sound.specs.Table.{view_at};
ghost use Rattle.sound.specs.Kinship.{terminated_up, named_up};
ghost use Rattle.kinship.specs.Climb.{Rooted, Stands, FirstUp};

use image::fields;
use rules::life_cycle;

// The first answer on the way up from slot s: the file there is asked first, then each directory above it.
pub fn first_up<F: Fn(usize) -> Option<usize>>(
    image: &[u8],
    n: usize,
    s: usize,
    asked: F,
) -> Option<usize>
    requires rooted { Rooted image.now n }
    requires stands { Stands image.now n s }
    requires asked { (t : ℕ) → Stands image.now n t → F.pre asked t }
    ensures { FirstUp (view_at image.now) s (F.post asked) result }
{
    let mut t = s;
    for _ in 0..fields::level(image, s) + 1 {
        if let Some(x) = asked(t) {
            return Some(x);
        }
        t = fields::parent(image, t);
    }
    None
}

// Whether the file in slot s or a directory above it is terminated.
pub fn terminated_up(image: &[u8], n: usize, s: usize) -> bool
    requires rooted { Rooted image.now n }
    requires stands { Stands image.now n s }
    ensures { result ≡ terminated_up image.now s }
{
    first_up(
        image,
        n,
        s,
        |t| life_cycle::is_terminated(fields::life_cycle(image, t)).then_some(t),
    )
    .is_some()
}

// Whether the directory in slot s or one above it has identifier x.
pub fn named_up(image: &[u8], n: usize, x: u16, s: usize) -> bool
    requires rooted { Rooted image.now n }
    requires stands { Stands image.now n s }
    ensures { result ≡ named_up (view_at image.now) x s }
{
    first_up(
        image,
        n,
        s,
        |t| (fields::identifier(image, t) == x).then_some(t),
    )
    .is_some()
}
