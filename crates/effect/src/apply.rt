// A verdict becomes its effect: a small function for each, then `apply`, which chooses among them (01 "SELECT",
// "CREATE", "DELETE", "ACTIVATE, DEACTIVATE", "TERMINATE EF / DF", "TERMINATE CARD USAGE"; 02 Ticket 4).
ghost use Rattle.std.specs.Prelude.{◌≡◌, ◌+◌, ◌-◌, ◌<◌, ◌≤◌, length};
ghost use Rattle.laws.specs.Lists.{splice};
ghost use Rattle.template.specs.Objects.{bytes_at};
ghost use Rattle.image.specs.Layout.{Within, Sized, set_current, set_life, longest_rule, version_of, count_of};
ghost use Rattle.pool.specs.Bodies.{start_at, body_at};
ghost use Rattle.pool.specs.Laid.{Laid};
ghost use Rattle.sound.specs.Effects.{created, new_body, made, filled, deleted, wiped};
ghost use Rattle.kinship.specs.Climb.{Rooted, Housed};
ghost use Rattle.verdict.specs.Words.{done};
ghost use Rattle.verdict.specs.Applied.{word_of, sent_data, applied_of, pooled_of};
ghost use Rattle.effect.specs.Fit.{Roomy, Applies};

use crate::erase;
use image::{Head, fields, write};
use rules::descriptor;
use template::Span;
use verdict::{Effect, Verdict, words};

// What SELECT found becomes current; its word tells the file's life cycle.
fn select(image: &mut [u8], df: u16, ef: u16, word: u16) -> u16
    requires { 16 ≤ length image.old }
    ensures { (result ≡ word) × (image.new ≡ set_current image.old df ef) }
{
    write::set_current(image, df, ef);
    word
}

// A value in CREATE's data as a part of the command: the data follow the five bytes up to Lc.
fn sent(command: &[u8], place: Span) -> &[u8]
    requires { (place.start ≤ place.end) × (5 + place.end ≤ length command.now) }
    ensures { result.now ≡ bytes_at (sent_data command.now) place }
{
    let from = 5 + place.start;
    let to = 5 + place.end;
    &command[from..to]
}

// The new record; a new DF becomes current with no EF, a new EF becomes current EF.
fn enter(image: &mut [u8], slot: usize, head: Head, name: &[u8], rule: &[u8])
    requires within { Within image.old slot }
    requires name_len_bound { (length name.now ≤ 16) × (length rule.now ≤ longest_rule (version_of image.old)) }
    ensures { image.new ≡ created image.old slot head name.now rule.now }
{
    let df = fields::current_df(image) as u16;
    let new = slot as u16;
    let v = fields::version(image);
    write::put_record(image, v, slot, head, name, rule);
    if head.kind == descriptor::DF {
        write::set_current(image, new, image::NONE);
        return;
    }
    write::set_current(image, df, new);
}

// How many bytes of the pool a new file needs.
fn new_body(v: u32, head: Head) -> usize
    ensures { result ≡ new_body v head }
{
    if !image::version::has_bodies(v) {
        return 0;
    }
    if head.kind != descriptor::EF {
        return 0;
    }
    head.size as usize
}

// CREATE, with its word: room for the body first, if there is one, and the body all FF; then the record, and where its body starts.
fn create(
    image: &mut [u8],
    n: usize,
    pool: &mut [u8],
    slot: usize,
    head: Head,
    name: &[u8],
    rule: &[u8],
) -> u16
    requires within { (Within image.old slot × Sized image.old n) × (n ≡ count_of image.old) }
    requires name_len_bound { (length name.now ≤ 16) × (length rule.now ≤ longest_rule (version_of image.old)) }
    requires laid { Laid n (start_at image.old) (body_at image.old) (length pool.old) × Roomy image.old pool.old head }
    ensures { (result ≡ done) × (image.new ≡ made image.old slot head name.now rule.now)
        × (pool.new ≡ filled image.old pool.old head) }
{
    let m = new_body(fields::version(image), head);
    if m == 0 {
        enter(image, slot, head, name, rule);
        return words::DONE;
    }
    let room = pool::placing::make(image, n, pool, m);
    enter(image, slot, head, name, rule);
    write::set_start(image, slot, room.start);
    words::DONE
}

// DELETE, with its word.
fn delete(image: &mut [u8], n: usize, pool: &mut [u8], slot: usize) -> u16
    requires rooted { Rooted image.old n × Housed image.old n }
    requires n_value { (n ≡ count_of image.old) × (slot < n) }
    requires laid { Laid n (start_at image.old) (body_at image.old) (length pool.old) }
    ensures { (result ≡ done) × (image.new ≡ deleted image.old slot)
        × (pool.new ≡ wiped image.old pool.old slot) }
{
    erase::erase(image, n, pool, slot);
    words::DONE
}

// UPDATE, with its word: the command's data, from `at` on.
fn update(pool: &mut [u8], at: usize, command: &[u8]) -> u16
    requires { (5 ≤ length command.now) × (at + (length command.now - 5) ≤ length pool.old) }
    ensures { (result ≡ done) × (pool.new ≡ splice pool.old at (sent_data command.now)) }
{
    numbers::copy_in(pool, at, apdu::sent_data(command));
    words::DONE
}

// Another life-cycle byte.
fn set_life(image: &mut [u8], slot: usize, life: u8) -> u16
    requires { Within image.old slot }
    ensures { (result ≡ done) × (image.new ≡ set_life image.old slot life) }
{
    write::set_life(image, slot, life);
    words::DONE
}

// The one effect of the verdict on the command, and its word.
pub fn apply(image: &mut [u8], n: usize, pool: &mut [u8], command: &[u8], verdict: Verdict) -> u16
    requires { Applies image.old n pool.old command.now verdict }
    ensures { (result ≡ word_of verdict) × (image.new ≡ applied_of image.old command.now verdict)
        × (pool.new ≡ pooled_of image.old pool.old command.now verdict) }
{
    match verdict {
        Err(word) => word,
        Ok(Effect::Select { df, ef, word }) => select(image, df, ef, word),
        Ok(Effect::Create(new)) => {
            let name = sent(command, new.name);
            let rule = sent(command, new.rule);
            let head = new.head;
            create(image, n, pool, new.slot, head, name, rule)
        }
        Ok(Effect::Delete(slot)) => delete(image, n, pool, slot),
        Ok(Effect::SetLife { slot, life }) => set_life(image, slot, life),
        Ok(Effect::Read { .. }) => words::DONE,
        Ok(Effect::Update(at)) => update(pool, at, command),
    }
}
