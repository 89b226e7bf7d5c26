// READ BINARY, UPDATE BINARY, READ RECORD and UPDATE RECORD, each by its own steps I to L (02 Ticket 4): the word of the first that fails,
// or from where on bytes of the pool are told or overwritten.
#![tactic(auto)]

ghost use Rattle.std.specs.Prelude.{◌≡◌, ◌*◌, ◌-◌, ◌<◌, ◌≤◌};
ghost use Rattle.rules.specs.Descriptor.{has_records};
ghost use Rattle.image.specs.Layout.{Within, none, rec_at, descriptor_of, record_length_of};
ghost use Rattle.kinship.specs.Climb.{Stands};
ghost use Rattle.judge_target.specs.Steps.{judged, followed};
ghost use Rattle.judge_bodies.specs.Bodies.{right_to, opening, touching, on_bytes, binary, on_record, recordwise};

use image::fields;
use judge_target::{Card, target};
use kinship::climb;
use pool::records;
use rules::{Right, descriptor};
use verdict::{Effect, Verdict, require, words};

// The right that the EF's rule is asked for.
pub fn right_to(reads: bool) -> Right
    ensures { result ≡ right_to reads }
{
    if reads { Right::Read } else { Right::Update }
}

// Whether the file in slot t has records.
fn has_records(image: &[u8], t: usize) -> bool
    requires { Within image.now t }
    ensures { result ≡ has_records (descriptor_of (rec_at image.now t)) }
{
    descriptor::has_records(fields::descriptor(image, t))
}

// What is due: bytes of the body of t, from k on, are told or overwritten.
fn touching_it(image: &[u8], t: usize, reads: bool, k: usize, n: usize) -> Verdict
    requires { Within image.now t × (k < 4294967296) }
    ensures { result ≡ touching image.now t reads k n }
{
    let at = fields::start(image, t) + k;
    if reads {
        return Ok(Effect::Read { at, count: n });
    }
    Ok(Effect::Update(at))
}

// The steps I to K that the four share, with t the current EF or FFFF.
fn open(card: &Card, t: usize, reads: bool) -> Result<(), u16>
    requires stands { (t ≡ none → ⊥) → Stands card.now.image.now card.now.n t }
    ensures { result ≡ judged (opening card.now.image.now card.now.pool.now t reads card.now.state.sets) (Ok tt) }
{
    require(t != image::NO_SLOT, words::NOT_ALLOWED)?;
    let granted = card.allowed(t, right_to(reads));
    require(granted, words::SECURITY_NOT_SATISFIED)?;
    require(
        target::is_activated(card.image, t),
        words::CONDITIONS_NOT_SATISFIED,
    )?;
    let alive = !climb::terminated_up(card.image, card.n, t);
    require(alive, words::CONDITIONS_NOT_SATISFIED)
}

// The steps on a transparent EF: `count` bytes from k on.
fn on_bytes(image: &[u8], t: usize, reads: bool, k: usize, count: usize) -> Verdict
    requires { Within image.now t × ((k < 65536) × (count ≤ 256)) }
    ensures { result ≡ judged (on_bytes image.now t k count) (touching image.now t reads k count) }
{
    require(!has_records(image, t), words::WRONG_STRUCTURE)?;
    let size = fields::size(image, t) as usize;
    require(k < size, words::WRONG_PARAMETERS)?;
    require(k + count <= size, words::WRONG_LENGTH)?;
    touching_it(image, t, reads, k, count)
}

// READ or UPDATE BINARY, with t the current EF or FFFF.
#[tactic(auto, unfolding(judge_target::specs::Steps::followed, crate::specs::Bodies::binary))]
pub fn binary(card: &Card, t: usize, reads: bool, k: usize, count: usize) -> Verdict
    requires stands { (t ≡ none → ⊥) → Stands card.now.image.now card.now.n t }
    requires k_bound { (k < 65536) × (count ≤ 256) }
    ensures { result ≡ followed (binary card.now.image.now card.now.pool.now t reads k count card.now.state.sets) }
{
    open(card, t, reads)?;
    on_bytes(card.image, t, reads, k, count)
}

// The steps on an EF with records: record number i, of `count` bytes.
#[tactic(auto, unfolding(pool::specs::Records::has_record))]
fn on_record(image: &[u8], t: usize, reads: bool, i: usize, count: usize) -> Verdict
    requires { Within image.now t × ((i < 256) × (count ≤ 256)) }
    ensures { result ≡ judged (on_record image.now t i count)
        (touching image.now t reads ((i - 1) * record_length_of (rec_at image.now t)) count) }
{
    require(has_records(image, t), words::WRONG_STRUCTURE)?;
    require(records::has_record(image, t, i), words::NO_SUCH_RECORD)?;
    let length = fields::record_length(image, t) as usize;
    require(count == length, words::WRONG_LENGTH)?;
    touching_it(image, t, reads, (i - 1) * length, count)
}

// READ or UPDATE RECORD number i, with t the current EF or FFFF.
#[tactic(auto, unfolding(judge_target::specs::Steps::followed, crate::specs::Bodies::recordwise))]
pub fn recordwise(card: &Card, t: usize, reads: bool, i: usize, count: usize) -> Verdict
    requires stands { (t ≡ none → ⊥) → Stands card.now.image.now card.now.n t }
    requires i_bound { (i < 256) × (count ≤ 256) }
    ensures { result ≡ followed (recordwise card.now.image.now card.now.pool.now t reads i count card.now.state.sets) }
{
    open(card, t, reads)?;
    on_record(card.image, t, reads, i, count)
}
