// What a security refusal lacks (02 Ticket 6): the rules that step J of the refused command asked are asked once more, for a decision of
// three. Judging itself needs only whether they grant; so a command that is not refused for security takes no longer.
#![tactic(auto)]

ghost use Rattle.std.specs.Prelude.{◌≡◌, true, ◌<◌, ◌≤◌, length};
ghost use Rattle.image.specs.Layout.{current_df_of};
ghost use Rattle.sound.specs.Sound.{Sound};
ghost use Rattle.sound.specs.Table.{view_at};
ghost use Rattle.sound.specs.Kinship.{child_named};
ghost use Rattle.kinship.specs.Climb.{Stands};
ghost use Rattle.create_data.specs.Data.{data_of};
ghost use Rattle.judge_target.specs.Target.{slot_in, right_for};
ghost use Rattle.apdu.specs.Apdu.{fit_length};
ghost use Rattle.judge.specs.Judge.{judge_of};
ghost use Rattle.judge_security.specs.Security.{is_denied, ef_decision, deletion, life_decision, decision_for, denial_of};

use access::Decision;
use apdu::bodies;
use create_data::Data;
use image::fields;
use judge_target::{Card, target};
use kinship::search;
use rules::Right;
use verdict::{State, Verdict, words};

// Whether a verdict is the refusal of step J.
fn is_denied(due: Verdict) -> bool
    ensures { result ≡ is_denied due }
{
    matches!(due, Err(words::SECURITY_NOT_SATISFIED))
}

// The right to create what CREATE's data describe, for a card of version v.
fn new_right(sent: &[u8], v: u32) -> Right
    ensures { result ≡ right_for (data_of v sent.now) }
{
    match create_data::read(sent, v) {
        Some(Data::Df(_)) => Right::CreateDf,
        Some(Data::Ef(_)) | None => Right::CreateEf,
    }
}

// The slot of the child of d with identifier x, 0 where there is none.
fn child(card: &Card, x: u16) -> usize
    ensures { (result ≡ slot_in (child_named card.now.n (view_at card.now.image.now) card.now.d x))
        × Stands card.now.image.now card.now.n result }
{
    search::child_named(card.image, card.n, card.d, x).unwrap_or(0)
}

// DELETE: the child's own rule or that of the directory d.
#[tactic(auto, unfolding(crate::specs::Security::deletion))]
fn on_deletion(card: &Card, x: u16) -> Decision
    ensures { result ≡ deletion card.now.image.now card.now.pool.now card.now.n card.now.d x card.now.state.sets }
{
    let s = child(card, x);
    let own = card.decided(s, Right::DeleteSelf);
    let above = card.decided(card.d, Right::DeleteChild);
    access::either(own, above)
}

// A command on the current EF.
#[tactic(auto, unfolding(crate::specs::Security::ef_decision))]
fn on_ef(card: &Card, right: Right) -> Decision
    ensures { result ≡ ef_decision card.now.image.now card.now.pool.now right card.now.state.sets }
{
    let t = fields::current_ef(card.image);
    if t == image::NO_SLOT {
        return Decision::Granted;
    }
    card.decided(t, right)
}

// The life-cycle commands, which are about what is current.
#[tactic(auto, unfolding(crate::specs::Security::life_decision, judge_target::specs::Target::current_file))]
fn on_current(card: &Card, i: u8) -> Decision
    requires d_value { card.now.d ≡ current_df_of card.now.image.now }
    ensures { result ≡ life_decision card.now.image.now card.now.pool.now card.now.d i card.now.state.sets }
{
    let t = target::current_file(card.image);
    match i {
        apdu::ACTIVATE_FILE => card.decided(t, Right::Activate),
        apdu::DEACTIVATE_FILE => card.decided(t, Right::Deactivate),
        apdu::TERMINATE_EF => on_ef(card, Right::Terminate),
        apdu::TERMINATE_DF => card.decided(card.d, Right::Terminate),
        _ => card.decided(0, Right::Terminate),
    }
}

// What step J decides, by the instruction; the shared steps have passed.
#[tactic(auto, unfolding(crate::specs::Security::decision_for))]
fn decided(card: &Card, command: &[u8]) -> Decision
    requires d_value { card.now.d ≡ current_df_of card.now.image.now }
    requires in_bounds { (4 ≤ length command.now) × (fit_length command.now ≡ true) }
    ensures { result ≡ decision_for card.now.image.now card.now.pool.now card.now.n card.now.d command.now card.now.state.sets }
{
    let i = command[1];
    match i {
        apdu::SELECT_FILE => Decision::Granted,
        apdu::CREATE_FILE => {
            let right = new_right(apdu::sent_data(command), fields::version(card.image));
            card.decided(card.d, right)
        }
        apdu::DELETE_FILE => on_deletion(card, apdu::sent_identifier(command)),
        _ if bodies::is_body(i) => {
            let right = judge_bodies::right_to(bodies::is_read(i));
            on_ef(card, right)
        }
        _ => on_current(card, i),
    }
}

// What a verdict that judging gave says of security: granted, unless it is the refusal of step J.
#[tactic(auto, unfolding(crate::specs::Security::denial_of, crate::specs::Security::step_j))]
pub fn denial(image: &[u8], pool: &[u8], command: &[u8], state: State, due: Verdict) -> Decision
    requires sound { Sound image.now }
    requires due_value { due ≡ judge_of image.now pool.now command.now state }
    ensures { result ≡ denial_of image.now pool.now command.now state.sets due }
{
    if !is_denied(due) {
        return Decision::Granted;
    }
    decided(&Card::new(image, pool, state), command)
}
