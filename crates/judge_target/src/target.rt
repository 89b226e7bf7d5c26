// What a command is about: the current file, the file that SELECT finds, what a file's rule grants.
ghost use Rattle.std.specs.Prelude.{◌≡◌, ◌<◌, ◌≤◌, length};
ghost use Rattle.std.specs.Option.{option_or};
ghost use Rattle.sound.specs.Table.{view_at};
ghost use Rattle.sound.specs.Sound.{Sound};
ghost use Rattle.rules.specs.Life.{can_activate, is_activated, is_deactivated};
ghost use Rattle.image.specs.Layout.{Sized, Within, count_of, current_df_of};
ghost use Rattle.sound.specs.Kinship.{child_named, terminated_at};
ghost use Rattle.kinship.specs.Climb.{Stands};
ghost use Rattle.kinship.specs.Search.{df_named};
ghost use Rattle.judge_target.specs.Target.{current_file, life_at, allowed_at, decision_at, itself, selected};

use crate::Card;
use access::Decision;
use image::fields;
use kinship::search;
use referred::deciding;
use rules::{Right, life_cycle};
use verdict::State;

// The current EF, else the current DF.
pub fn current_file(image: &[u8]) -> usize
    requires { 16 ≤ length image.now }
    ensures { result ≡ current_file image.now }
{
    let e = fields::current_ef(image);
    if e == image::NO_SLOT {
        return fields::current_df(image);
    }
    e
}

// The life cycle of the file in slot s is one that ACTIVATE takes; is activated; is deactivated.
pub fn can_activate(image: &[u8], s: usize) -> bool
    requires { Within image.now s }
    ensures { result ≡ can_activate (life_at image.now s) }
{
    life_cycle::can_activate(fields::life_cycle(image, s))
}

pub fn is_activated(image: &[u8], s: usize) -> bool
    requires { Within image.now s }
    ensures { result ≡ is_activated (life_at image.now s) }
{
    life_cycle::is_activated(fields::life_cycle(image, s))
}

pub fn is_deactivated(image: &[u8], s: usize) -> bool
    requires { Within image.now s }
    ensures { result ≡ is_deactivated (life_at image.now s) }
{
    life_cycle::is_deactivated(fields::life_cycle(image, s))
}

pub fn is_terminated(image: &[u8], s: usize) -> bool
    requires { Within image.now s }
    ensures { result ≡ terminated_at image.now s }
{
    life_cycle::is_terminated(fields::life_cycle(image, s))
}

// The last two tries of SELECT: the children of d, then the DFs among the children of p.
fn near(image: &[u8], n: usize, d: usize, p: usize, x: u16) -> Option<usize>
    requires { Sized image.now n }
    ensures { result ≡ option_or (child_named n (view_at image.now) d x) (df_named n (view_at image.now) p x) }
{
    search::child_named(image, n, d, x).or_else(|| search::df_named(image, n, p, x))
}

// The last three tries of SELECT: p, the parent of d, and what lies near.
fn beside(image: &[u8], n: usize, d: usize, p: usize, x: u16) -> Option<usize>
    requires sized { Sized image.now n }
    requires p_lt_n { p < n }
    ensures { result ≡ option_or (itself (view_at image.now) x p)
        (option_or (child_named n (view_at image.now) d x) (df_named n (view_at image.now) p x)) }
{
    if fields::identifier(image, p) == x {
        return Some(p);
    }
    near(image, n, d, p, x)
}

impl<'a> Card<'a> {
    // A sound image and its pool, as a command meets them.
    pub fn new(image: &'a [u8], pool: &'a [u8], state: State) -> Card<'a>
        requires { Sound image.now }
        ensures lent { (result.image ≡ image.entry) × (result.pool ≡ pool.entry) × (result.state ≡ state) }
        ensures read { (result.n ≡ count_of image.now) × (result.d ≡ current_df_of image.now) }
    {
        Card {
            image,
            pool,
            n: fields::count(image),
            d: fields::current_df(image),
            state,
        }
    }

    // Whether the rule that decides on the file in slot s grants a right.
    pub fn allowed(&self, s: usize, right: Right) -> bool
        requires stands { Stands self.now.image.now self.now.n s }
        ensures { result ≡ allowed_at self.now.image.now self.now.pool.now s right self.now.state.sets }
    {
        let form = access::asked_as(fields::form(self.image, s));
        let rule = deciding::deciding(self.image, self.pool, self.n, s);
        access::granted(form, rule, right, self.state.sets)
    }

    // What the rule that decides on the file in slot s says of a right. No one function with `allowed`: what is asked would be its
    // argument, and be all of it.
    pub fn decided(&self, s: usize, right: Right) -> Decision
        requires stands { Stands self.now.image.now self.now.n s }
        ensures { result ≡ decision_at self.now.image.now self.now.pool.now s right self.now.state.sets }
    {
        let form = access::asked_as(fields::form(self.image, s));
        let rule = deciding::deciding(self.image, self.pool, self.n, s);
        access::decide(form, rule, right, self.state.sets)
    }

    // The parent of the current DF.
    fn parent_of(&self) -> usize
        ensures { (result ≡ (view_at self.now.image.now self.now.d).parent) × (result < self.now.n) }
    {
        fields::parent(self.image, self.d)
    }

    // The file that SELECT finds by identifier x.
    pub fn select(&self, x: u16) -> Option<usize>
        ensures { result ≡ selected self.now.image.now self.now.n self.now.d x }
    {
        if fields::identifier(self.image, 0) == x {
            return Some(0);
        }
        if fields::identifier(self.image, self.d) == x {
            return Some(self.d);
        }
        beside(self.image, self.n, self.d, self.parent_of(), x)
    }
}
