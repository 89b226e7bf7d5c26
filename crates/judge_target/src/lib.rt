// What a command is about, and how it is judged: steps, targets, what a sound image makes ready (01 "The order in
// which a command is judged"). It reads and changes nothing. The commands themselves stand above, in `judge_create`,
// `judge_commands` and `judge_bodies`, the steps that all share in `judge`.
#![tactic(auto)]

ghost use Rattle.judge_target.specs.Judgeable.{Judgeable};

use verdict::State;

pub mod target;

// A card as a command meets it: image and pool, how many slots there are, the slot of the current DF, and what the caller hands over.
// What judging needs of an image holds of each; a sound image gives it (`Card::new`).
#[derive(Clone, Copy)]
pub struct Card<'a> {
    pub image: &'a [u8],
    pub pool: &'a [u8],
    pub n: usize,
    pub d: usize,
    pub state: State,
    pub ghost judgeable: { Judgeable image.now n d },
}
