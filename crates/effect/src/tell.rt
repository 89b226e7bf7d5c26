// What a verdict tells, written into the caller's response (02 Tickets 2 and 4): SELECT with P2 04 the template of the file that it makes
// current, READ bytes of the pool. It comes before the effect, so that a response that is too short leaves everything as it came.
ghost use Rattle.std.specs.Prelude.{◌≡◌, cond, [], ◌+◌, ◌≤◌, length};
ghost use Rattle.laws.specs.Lists.{part};
ghost use Rattle.image.specs.Layout.{rec_at};
ghost use Rattle.apdu.specs.Apdu.{wants_template};
ghost use Rattle.fcp.specs.Template.{template_of};
ghost use Rattle.fcp.specs.Writing.{Tellable, Answered};
ghost use Rattle.effect.specs.Told.{chosen, told, CanTell};

use fcp::TooShort;
use verdict::{Effect, Verdict};

// The file that SELECT makes current.
fn chosen(df: u16, ef: u16) -> usize
    ensures { result ≡ chosen df ef }
{
    if ef == image::NONE {
        return df as usize;
    }
    ef as usize
}

// SELECT's data, where P2 asks for them.
fn tell_selected(
    response: &mut [u8],
    image: &[u8],
    command: &[u8],
    df: u16,
    ef: u16,
) -> Result<usize, TooShort>
    requires { Tellable image.now (chosen df ef) }
    ensures { Answered (cond (wants_template command.now) (template_of (rec_at image.now (chosen df ef))) [])
        response.old response.new result }
{
    if !apdu::wants_template(command) {
        return Ok(0);
    }
    let s = chosen(df, ef);
    fcp::answer::write(response, image, s)
}

// A READ's data: a part of the pool.
fn tell_read(response: &mut [u8], pool: &[u8], at: usize, count: usize) -> Result<usize, TooShort>
    requires { at + count ≤ length pool.now }
    ensures { Answered (part pool.now at count) response.old response.new result }
{
    if response.len() < count {
        return Err(TooShort);
    }
    let to = at + count;
    numbers::copy_in(response, 0, &pool[at..to]);
    Ok(count)
}

// What the verdict on the command tells, at the start of the response, whose other bytes stay, and how many bytes; or that it is
// too short, and as it came.
pub fn tell(
    response: &mut [u8],
    image: &[u8],
    pool: &[u8],
    command: &[u8],
    verdict: Verdict,
) -> Result<usize, TooShort>
    requires { CanTell image.now pool.now verdict }
    ensures { Answered (told image.now pool.now command.now verdict) response.old
        response.new result }
{
    match verdict {
        Err(_) => Ok(0),
        Ok(Effect::Select { df, ef, .. }) => tell_selected(response, image, command, df, ef),
        Ok(Effect::Create(_)) => Ok(0),
        Ok(Effect::Delete(_)) => Ok(0),
        Ok(Effect::SetLife { .. }) => Ok(0),
        Ok(Effect::Read { at, count }) => tell_read(response, pool, at, count),
        Ok(Effect::Update(_)) => Ok(0),
    }
}
