// The card: one command per call on an image in a lent buffer (01), with file bodies in a second one, the pool (02 Ticket 4), and what it
// tells in a third (02 Ticket 2). Soundness first, then the pool's length, then judging, then what is told, then the one effect that is
// due. It answers demands 1 and 2: specs/Command says what a call gives, specs/Demands and specs/Obeyed what the demands ask for.
// specs/Lives says who writes which life-cycle byte (02 Ticket 1), specs/Bodies what becomes of contents, specs/Security what a security
// refusal lacks (02 Ticket 6).
#![tactic(auto)]

ghost use Rattle.std.specs.Prelude.{◌≡◌};
ghost use Rattle.sound.specs.Sound.{Sound};
ghost use Rattle.card.specs.declared.CommandError.TheVariants.{Card, Short};
ghost use Rattle.card.specs.Command.{pool_fits, Checked, CommandPromises};

use access::Decision;
use fcp::TooShort;
use verdict::State;

pub mod standing;

// What a command on a card answers: its word, how many bytes it told, and what it lacks where it was refused for security (with any other
// word, where no rule was asked too, nothing: Granted).
#[derive(Clone, Copy)]
pub struct Answer {
    pub word: u16,
    pub told: usize,
    pub security: Decision,
}

// Why an image and a pool are no card, with the number of that answer: the image is damaged, or the pool does not have the length of this
// card's.
#[derive(Clone, Copy, Debug, PartialEq, Eq)]
pub enum CardError {
    Damaged = 1,
    WrongPool = 6,
}

// Why a command has no answer: there is no card, or the response is too short for what it would tell.
#[derive(Clone, Copy, Debug, PartialEq, Eq)]
pub enum CommandError {
    Card(CardError),
    Short,
}

impl From<CardError> for CommandError {
    ghost from_gives = { λ e r. r ≡ Card e };

    fn from(e: CardError) -> CommandError {
        CommandError::Card(e)
    }
}

impl From<TooShort> for CommandError {
    ghost from_gives = { λ _ r. r ≡ Short };

    fn from(_e: TooShort) -> CommandError {
        CommandError::Short
    }
}

// Whether the pool has the length that a sound image wants: the root's total, where files have bodies.
pub fn pool_fits(image: &[u8], pool: &[u8]) -> bool
    requires { Sound image.now }
    ensures { result ≡ pool_fits image.now pool.now }
{
    if !image::version::has_bodies(image::fields::version(image)) {
        return true;
    }
    pool.len() == image::fields::size(image, 0) as usize
}

// The slot count of a card; what is none is refused before all else.
fn slots(image: &[u8], pool: &[u8]) -> Result<usize, CardError>
    ensures { Checked image.now pool.now result }
{
    if !sound_test::sound(image) {
        return Err(CardError::Damaged);
    }
    if !pool_fits(image, pool) {
        return Err(CardError::WrongPool);
    }
    Ok(image::fields::count(image))
}

// One command on any image, whatever its bytes, the command, the response and the state.
pub fn command(
    image: &mut [u8],
    pool: &mut [u8],
    command: &[u8],
    response: &mut [u8],
    state: State,
) -> Result<Answer, CommandError>
    ensures { CommandPromises image.old pool.old command.now state response.old result
        image.new pool.new response.new }
{
    let n = slots(image, pool)?;
    let due = judge::order::judge(image, pool, command, state);
    let told = effect::tell::tell(response, image, pool, command, due)?;
    let security = judge_security::denial(image, pool, command, state, due);
    let word = effect::apply::apply(image, n, pool, command, due);
    Ok(Answer {
        word,
        told,
        security,
    })
}
