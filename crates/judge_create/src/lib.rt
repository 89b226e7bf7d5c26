// CREATE FILE by its own steps H to L (01 "CREATE"): its data, the rights of the current DF, its life cycle,
// then identifier, name and memory.
#![tactic(auto)]

ghost use Rattle.std.specs.Prelude.{◌≡◌, ◌<◌, ◌≤◌, length};
ghost use Rattle.template.specs.Objects.{bytes_at};
ghost use Rattle.image.specs.Layout.{Sized};
ghost use Rattle.sound.specs.Table.{view_at};
ghost use Rattle.sound.specs.Kinship.{free_slot};
ghost use Rattle.judge_target.specs.Steps.{judged, followed};
ghost use Rattle.judge_target.specs.Target.{slot_in, new_head, new_record};
ghost use Rattle.judge_create.specs.Creation.{takes_files, admission, create};

use create_data::{Data, NewFile};
use image::{Head, fields};
use judge_target::{Card, target};
use kinship::{climb, names, room, search};
use rules::{Right, descriptor};
use verdict::{Effect, NewRecord, Verdict, require, words};

// Whether directory d takes files: it isn't deactivated, and neither it nor one above is terminated.
#[tactic(auto, unfolding(crate::specs::Creation::takes_files))]
fn takes_files(card: &Card) -> bool
    ensures { result ≡ takes_files card.now.image.now card.now.d }
{
    !target::is_deactivated(card.image, card.d) && !climb::terminated_up(card.image, card.n, card.d)
}

// The slot that a new file takes: the lowest free one. Where all steps hold there is one (sound, FullTable).
fn new_slot(image: &[u8], n: usize) -> usize
    requires { Sized image.now n }
    ensures { result ≡ slot_in (free_slot n (view_at image.now)) }
{
    search::free_slot(image, n).unwrap_or(0)
}

// The new record's numbers: in directory d, one level down.
fn head_of(card: &Card, kind: u8, new: NewFile) -> Head
    ensures { result ≡ new_head card.now.image.now card.now.d kind new }
{
    let level = fields::level(card.image, card.d);
    Head {
        kind,
        descriptor: new.descriptor,
        life: new.life,
        form: new.form,
        identifier: new.identifier,
        parent: card.d as u16,
        level: (level + 1) as u16,
        record_length: new.record_length,
        size: new.size,
    }
}

// A new file of that kind, by the right that it needs, in slot s: the steps J to L for its numbers and its name, a part of the
// data.
#[tactic(auto, unfolding(laws::specs::Lists::part))]
fn new_file(card: &Card, s: usize, sent: &[u8], kind: u8, right: Right, new: NewFile) -> Verdict
    requires start_le_end { (new.name.start ≤ new.name.end) × (new.name.end ≤ length sent.now) }
    ensures { result ≡ judged
        (admission card.now.image.now card.now.pool.now card.now.n card.now.d right new.identifier (bytes_at sent.now new.name)
        new.size card.now.state.sets)
        (Ok (Effect.Create (new_record card.now.image.now card.now.d s kind new))) }
{
    let name = new.name;
    let named = &sent[name.start..name.end];
    let granted = card.allowed(card.d, right);
    require(granted, words::SECURITY_NOT_SATISFIED)?;
    require(takes_files(card), words::CONDITIONS_NOT_SATISFIED)?;
    let free = names::identifier_free(card.image, card.n, card.d, new.identifier);
    require(free, words::IDENTIFIER_EXISTS)?;
    require(
        names::name_free(card.image, card.n, named),
        words::NAME_EXISTS,
    )?;
    let fits = room::fits_room(card.image, card.n, card.d, new.size);
    require(fits, words::NOT_ENOUGH_MEMORY)?;
    Ok(Effect::Create(NewRecord {
        slot: s,
        head: head_of(card, kind, new),
        name,
        rule: new.rule,
    }))
}

pub fn create_file(card: &Card, sent: &[u8]) -> Verdict
    ensures { result ≡ followed (create card.now.image.now card.now.pool.now card.now.n card.now.d sent.now card.now.state.sets) }
{
    let s = new_slot(card.image, card.n);
    match create_data::read(sent, fields::version(card.image)) {
        Some(Data::Df(new)) => new_file(card, s, sent, descriptor::DF, Right::CreateDf, new),
        Some(Data::Ef(new)) => new_file(card, s, sent, descriptor::EF, Right::CreateEf, new),
        None => Err(words::WRONG_DATA),
    }
}
