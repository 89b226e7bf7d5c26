// The calls as C sees them (include/hullplaiter.h): each wraps one public call and gives 01's numbers, and 02's, for its answer.
// No call asks anything of its caller, and none keeps anything from call to call.
#![tactic(auto)]

ghost use Rattle.std.specs.Prelude.{◌≡◌, ◌<◌};
ghost use Rattle.card.specs.Command.{answer_told};
ghost use Rattle.referred.specs.Deciding.{Bounded};
ghost use Rattle.abi.specs.Numbers.{edition_of, state_of, packed, told_numbers, place_numbers};
ghost use Rattle.abi.specs.Promises.{HullMake, HullCommand, HullReport, HullSound, HullRule};

use card::{Answer, CommandError};
use maker::Edition;
use referred::Place;
use rules::Sets;
use verdict::State;

// Makes a fresh image of a buffer, a card of that kind: 0, or 2, 3, 4 with the buffer as it came.
#[unsafe(no_mangle)]
pub extern "C" fn hull_make(image: &mut [u8], kind: u32, total: u32, form: u32, rule: &[u8]) -> u32
    ensures { HullMake image.old (edition_of kind) total form rule.now result image.new }
{
    match maker::fresh::make(image, Edition { version: kind }, total, form, rule) {
        Ok(()) => 0,
        Err(e) => e as u32,
    }
}

// The answer of a reply above the sixteen bits of its word.
fn packed(reply: Result<Answer, CommandError>) -> u32
    ensures { result ≡ packed reply }
{
    match reply {
        Ok(answer) => u32::from(answer.word),
        Err(CommandError::Card(e)) => 65536 * (e as u32),
        Err(CommandError::Short) => 65536 * 5,
    }
}

// What a reply tells beside its word: how many bytes of data, what a security refusal lacks (0 no refusal, 1 lacking, 2 closed), and 0.
fn told_numbers(reply: Result<Answer, CommandError>) -> [u32; 3]
    requires { answer_told reply < 65536 }
    ensures { result ≡ told_numbers reply }
{
    match reply {
        Ok(answer) => [answer.told as u32, answer.security as u32, 0],
        Err(_) => [0; 3],
    }
}

// One command on an image and its pool: 65536 times the answer, plus the word; what it tells at the start of the response, and three
// numbers.
#[unsafe(no_mangle)]
pub extern "C" fn hull_command(
    image: &mut [u8],
    pool: &mut [u8],
    command: &[u8],
    response: &mut [u8],
    messaging: u16,
    external: u16,
    user: u16,
    channels: u8,
    numbers: &mut [u32; 3],
) -> u32
    ensures { HullCommand image.old pool.old command.now (state_of messaging external user channels)
        response.old result image.new pool.new response.new numbers.new }
{
    let sets = Sets {
        messaging,
        external,
        user,
    };
    let state = State { sets, channels };
    let reply = card::command(image, pool, command, response, state);
    *numbers = told_numbers(reply);
    packed(reply)
}

// The report: its answer, and its four numbers in the lent array.
#[unsafe(no_mangle)]
pub extern "C" fn hull_report(image: &[u8], numbers: &mut [u32; 4]) -> u32
    ensures { HullReport image.now result numbers.new }
{
    match maker::report::report(image) {
        Some(f) => {
            *numbers = [f.total, f.room, f.children, f.beneath];
            0
        }
        None => {
            *numbers = [0; 4];
            1
        }
    }
}

// Whether an image is sound: 1 or 0.
#[unsafe(no_mangle)]
pub extern "C" fn hull_sound(image: &[u8]) -> u32
    ensures { HullSound image.now result }
{
    u32::from(sound_test::sound(image))
}

// A place as three numbers, which the header for C gives: 0 nowhere, 1 in the image, 2 in the pool; the first byte; how many there are.
fn place_numbers(place: Option<Place>) -> [u32; 3]
    requires { Bounded place }
    ensures { result ≡ place_numbers place }
{
    match place {
        None => [0; 3],
        Some(Place::InImage { from, to }) => [1, from as u32, (to - from) as u32],
        Some(Place::InPool { from, to }) => [2, from as u32, (to - from) as u32],
    }
}

// Where the rule that decides on the file in a slot stands: the answer, and three numbers in the lent array.
#[unsafe(no_mangle)]
pub extern "C" fn hull_rule(image: &[u8], pool: &[u8], slot: u32, numbers: &mut [u32; 3]) -> u32
    ensures { HullRule image.now pool.now slot result numbers.new }
{
    match card::standing::ruling(image, pool, slot as usize) {
        Ok(place) => {
            *numbers = place_numbers(place);
            0
        }
        Err(e) => {
            *numbers = [0; 3];
            e as u32
        }
    }
}
