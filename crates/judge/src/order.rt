// The order in which a command is judged (01): the steps A to G that all commands share, then the command's
// own, by its instruction.
ghost use Rattle.std.specs.Prelude.{◌≡◌, true, ◌≤◌, length};
ghost use Rattle.image.specs.Layout.{version_of, current_df_of};
ghost use Rattle.sound.specs.Sound.{Sound};
ghost use Rattle.judge_target.specs.Steps.{followed};
ghost use Rattle.apdu.specs.Apdu.{is_known, fit_length};
ghost use Rattle.judge.specs.Judge.{life_plan, body_plan, plan_for, judge_for, judge_of};

use apdu::bodies;
use image::fields;
use judge_target::{Card, target};
use verdict::{State, Verdict, require, words};

// The life-cycle commands, which are about what is current.
#[tactic(auto, unfolding(crate::specs::Judge::life_plan, judge_target::specs::Target::current_file))]
fn on_current(card: &Card, i: u8) -> Verdict
    requires d_value { card.now.d ≡ current_df_of card.now.image.now }
    ensures { result ≡ followed (life_plan card.now.image.now card.now.pool.now card.now.d i card.now.state.sets) }
{
    match i {
        apdu::ACTIVATE_FILE => {
            judge_commands::activate_file(card, target::current_file(card.image))
        }
        apdu::DEACTIVATE_FILE => {
            judge_commands::deactivate_file(card, target::current_file(card.image))
        }
        apdu::TERMINATE_EF => { judge_commands::terminate_ef(card, fields::current_ef(card.image)) }
        apdu::TERMINATE_DF => judge_commands::terminate_df(card),
        _ => judge_commands::terminate_card(card),
    }
}

// The commands on a body, which are about the current EF.
#[tactic(auto, unfolding(crate::specs::Judge::body_plan))]
fn on_body(card: &Card, command: &[u8]) -> Verdict
    requires in_bounds { 5 ≤ length command.now }
    ensures { result ≡ followed (body_plan card.now.image.now card.now.pool.now command.now card.now.state.sets) }
{
    let i = command[1];
    let t = fields::current_ef(card.image);
    let reads = bodies::is_read(i);
    let count = bodies::asked(command);
    if bodies::is_binary(i) {
        let from = bodies::sent_start(command) as usize;
        return judge_bodies::binary(card, t, reads, from, count);
    }
    let number = bodies::record_number(command);
    judge_bodies::recordwise(card, t, reads, number, count)
}

// The steps of the command's own, by its instruction; the shared ones have passed.
#[tactic(auto, unfolding(crate::specs::Judge::plan_for))]
fn by_instruction(card: &Card, command: &[u8]) -> Verdict
    requires d_value { card.now.d ≡ current_df_of card.now.image.now }
    requires in_bounds { (4 ≤ length command.now) × (fit_length command.now ≡ true) }
    ensures { result ≡ followed (plan_for card.now.image.now card.now.pool.now card.now.n card.now.d command.now card.now.state) }
{
    let i = command[1];
    match i {
        apdu::SELECT_FILE => { judge_commands::select_file(card, apdu::sent_identifier(command)) }
        apdu::CREATE_FILE => { judge_create::create_file(card, apdu::sent_data(command)) }
        apdu::DELETE_FILE => { judge_commands::delete_file(card, apdu::sent_identifier(command)) }
        _ if bodies::is_body(i) => on_body(card, command),
        _ => on_current(card, i),
    }
}

// Whether the card has the instruction, by its version.
fn is_known(image: &[u8], i: u8) -> bool
    requires { 16 ≤ length image.now }
    ensures { result ≡ is_known (version_of image.now) i }
{
    apdu::is_known(fields::version(image), i)
}

// The verdict on a command: the steps A to G, then the command's own.
#[tactic(auto, unfolding(crate::specs::Judge::judge_for))]
fn judge_for(card: &Card, command: &[u8]) -> Verdict
    requires d_value { card.now.d ≡ current_df_of card.now.image.now }
    ensures { result ≡ judge_for card.now.image.now card.now.pool.now card.now.n card.now.d command.now card.now.state }
{
    require(4 <= command.len(), words::WRONG_LENGTH)?;
    let own = !apdu::on_other_channel(command[0]);
    require(own, words::CONDITIONS_NOT_SATISFIED)?;
    require(command[0] == 0x00, words::WRONG_CLASS)?;
    require(is_known(card.image, command[1]), words::WRONG_INSTRUCTION)?;
    let alive = !target::is_terminated(card.image, 0);
    require(alive, words::CONDITIONS_NOT_SATISFIED)?;
    let free = !apdu::is_crowded(command[1], card.state);
    require(free, words::CONDITIONS_NOT_SATISFIED)?;
    require(apdu::fit_parameters(command), words::WRONG_PARAMETERS)?;
    require(apdu::fit_length(command), words::WRONG_LENGTH)?;
    by_instruction(card, command)
}

// The verdict on a command, on a sound image.
#[tactic(auto, unfolding(crate::specs::Judge::judge_of))]
pub fn judge(image: &[u8], pool: &[u8], command: &[u8], state: State) -> Verdict
    requires { Sound image.now }
    ensures { result ≡ judge_of image.now pool.now command.now state }
{
    judge_for(&Card::new(image, pool, state), command)
}
