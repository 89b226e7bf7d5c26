// The commands but CREATE and those on bodies, each by its own steps H to L (01, from "SELECT" on): the word of the first that
// fails, or the effect that is due.
#![tactic(auto, unfolding(judge_target::specs::Steps::followed))]

ghost use Rattle.std.specs.Prelude.{◌≡◌, ◌<◌, ◌≤◌, not, [], ◌∷◌};
ghost use Rattle.image.specs.Layout.{Within, none};
ghost use Rattle.kinship.specs.Climb.{Stands};
ghost use Rattle.sound.specs.Kinship.{terminated_up};
ghost use Rattle.verdict.specs.Words.{security_not_satisfied, conditions_not_satisfied};
ghost use Rattle.judge_target.specs.Steps.{step, judged, followed};
ghost use Rattle.judge_target.specs.Target.{life_at, allowed_at};
ghost use Rattle.judge_commands.specs.Commands.{select_word, selecting, select, may_delete, deleting, delete, activate, deactivate};
ghost use Rattle.judge_commands.specs.Commands.{terminate_the_ef, terminate_the_df, terminate_the_card};

use image::fields;
use judge_target::{Card, target};
use kinship::{climb, search};
use rules::{Right, descriptor, life_cycle};
use verdict::{Effect, Verdict, require, words};

// The word of a selection, by the file's life cycle.
#[tactic(auto, unfolding(crate::specs::Commands::select_word))]
fn select_word(life: u8) -> u16
    ensures { result ≡ select_word life }
{
    if life_cycle::is_deactivated(life) {
        return words::FILE_DEACTIVATED;
    }
    if life_cycle::is_terminated(life) {
        return words::FILE_TERMINATED;
    }
    words::DONE
}

// The word of selecting the file in slot s.
fn word_at(image: &[u8], s: usize) -> u16
    requires { Within image.now s }
    ensures { result ≡ select_word (life_at image.now s) }
{
    select_word(fields::life_cycle(image, s))
}

// What becomes current when the file in slot s is selected.
#[tactic(auto, unfolding(crate::specs::Commands::selecting))]
fn selecting_it(card: &Card, s: usize) -> Verdict
    requires s_lt_n { s < card.now.n }
    ensures { result ≡ selecting card.now.image.now card.now.d s }
{
    let word = word_at(card.image, s);
    if fields::kind(card.image, s) == descriptor::DF {
        return Ok(Effect::Select {
            df: s as u16,
            ef: image::NONE,
            word,
        });
    }
    Ok(Effect::Select {
        df: card.d as u16,
        ef: s as u16,
        word,
    })
}

pub fn select_file(card: &Card, x: u16) -> Verdict
    ensures { result ≡ followed (select card.now.image.now card.now.n card.now.d x) }
{
    match card.select(x) {
        Some(s) => selecting_it(card, s),
        None => Err(words::NOT_FOUND),
    }
}

// Whether the child in slot s may be deleted: by its own rule, or by directory d's.
#[tactic(auto, unfolding(crate::specs::Commands::may_delete))]
fn may_delete(card: &Card, s: usize) -> bool
    requires stands { Stands card.now.image.now card.now.n s }
    ensures { result ≡ may_delete card.now.image.now card.now.pool.now card.now.d s card.now.state.sets }
{
    card.allowed(s, Right::DeleteSelf) || card.allowed(card.d, Right::DeleteChild)
}

// The child in slot s goes, if it may be deleted.
fn deleting_it(card: &Card, s: usize) -> Verdict
    requires stands { Stands card.now.image.now card.now.n s }
    ensures { result ≡ deleting card.now.image.now card.now.pool.now card.now.d card.now.state.sets s }
{
    let granted = may_delete(card, s);
    require(granted, words::SECURITY_NOT_SATISFIED)?;
    Ok(Effect::Delete(s))
}

pub fn delete_file(card: &Card, x: u16) -> Verdict
    ensures { result ≡ followed (delete card.now.image.now card.now.pool.now card.now.n card.now.d x card.now.state.sets) }
{
    match search::child_named(card.image, card.n, card.d, x) {
        Some(s) => deleting_it(card, s),
        None => Err(words::NOT_FOUND),
    }
}

// The steps J and K that the commands on a life cycle share: the right to change the file in slot t, and none of 0C at or above it.
fn may_change(card: &Card, t: usize, right: Right) -> Result<(), u16>
    requires stands { Stands card.now.image.now card.now.n t }
    ensures { result ≡ judged
        (step (allowed_at card.now.image.now card.now.pool.now t right card.now.state.sets) security_not_satisfied
        ∷ step (not (terminated_up card.now.image.now t)) conditions_not_satisfied
        ∷ [])
        (Ok tt) }
{
    let granted = card.allowed(t, right);
    require(granted, words::SECURITY_NOT_SATISFIED)?;
    let alive = !climb::terminated_up(card.image, card.n, t);
    require(alive, words::CONDITIONS_NOT_SATISFIED)
}

// ACTIVATE of the file in slot t. No one function for it and DEACTIVATE: right, test and byte would be its arguments, and be all of it.
pub fn activate_file(card: &Card, t: usize) -> Verdict
    requires stands { Stands card.now.image.now card.now.n t }
    ensures { result ≡ followed (activate card.now.image.now card.now.pool.now t card.now.state.sets) }
{
    may_change(card, t, Right::Activate)?;
    let takes = target::can_activate(card.image, t);
    require(takes, words::CONDITIONS_NOT_SATISFIED)?;
    Ok(Effect::SetLife {
        slot: t,
        life: life_cycle::ACTIVATED_BYTE,
    })
}

// DEACTIVATE of the file in slot t.
pub fn deactivate_file(card: &Card, t: usize) -> Verdict
    requires stands { Stands card.now.image.now card.now.n t }
    ensures { result ≡ followed (deactivate card.now.image.now card.now.pool.now t card.now.state.sets) }
{
    may_change(card, t, Right::Deactivate)?;
    let takes = target::is_activated(card.image, t);
    require(takes, words::CONDITIONS_NOT_SATISFIED)?;
    Ok(Effect::SetLife {
        slot: t,
        life: life_cycle::DEACTIVATED_BYTE,
    })
}

// TERMINATE EF, with t the current EF or FFFF.
pub fn terminate_ef(card: &Card, t: usize) -> Verdict
    requires stands { (t ≡ none → ⊥) → Stands card.now.image.now card.now.n t }
    ensures { result ≡ followed (terminate_the_ef card.now.image.now card.now.pool.now t card.now.state.sets) }
{
    require(t != image::NO_SLOT, words::NOT_ALLOWED)?;
    may_change(card, t, Right::Terminate)?;
    Ok(Effect::SetLife {
        slot: t,
        life: life_cycle::TERMINATED_BYTE,
    })
}

// TERMINATE DF: the current one.
pub fn terminate_df(card: &Card) -> Verdict
    ensures { result ≡ followed (terminate_the_df card.now.image.now card.now.pool.now card.now.d card.now.state.sets) }
{
    let granted = card.allowed(card.d, Right::Terminate);
    require(granted, words::SECURITY_NOT_SATISFIED)?;
    require(card.d != 0, words::CONDITIONS_NOT_SATISFIED)?;
    let alive = !climb::terminated_up(card.image, card.n, card.d);
    require(alive, words::CONDITIONS_NOT_SATISFIED)?;
    Ok(Effect::SetLife {
        slot: card.d,
        life: life_cycle::TERMINATED_BYTE,
    })
}

// TERMINATE CARD USAGE.
pub fn terminate_card(card: &Card) -> Verdict
    ensures { result ≡ followed (terminate_the_card card.now.image.now card.now.pool.now card.now.state.sets) }
{
    let granted = card.allowed(0, Right::Terminate);
    require(granted, words::SECURITY_NOT_SATISFIED)?;
    Ok(Effect::SetLife {
        slot: 0,
        life: life_cycle::TERMINATED_BYTE,
    })
}
