// What passes between judging and applying a command (judge, then apply): what the caller hands over, and the verdict,
// one effect with its numbers or the word of a refusal. specs/ has the status words of 01 and 02, and what each verdict
// gives: its word, and every byte of image and pool afterwards.

#![tactic(auto)]

ghost use Rattle.std.specs.Prelude.{◌≡◌, cond};

pub mod words;

// What the caller hands over beside the command: the sets of what has been authenticated, and the byte of
// open channels, of which only bits 1 to 3 count.
#[derive(Clone, Copy)]
pub struct State {
    pub sets: rules::Sets,
    pub channels: u8,
}

// A record to be made: its slot, its numbers, and where its name and its rule stand in CREATE's data, which follow the
// five bytes up to Lc.
#[derive(Clone, Copy)]
pub struct NewRecord {
    pub slot: usize,
    pub head: image::Head,
    pub name: template::Span,
    pub rule: template::Span,
}

// The effect that is due, with the numbers that it needs.
#[derive(Clone, Copy)]
pub enum Effect {
    // The current DF and EF slots afterwards, and the word.
    Select { df: u16, ef: u16, word: u16 },
    Create(NewRecord),
    // The slot of the file that goes, with all beneath it.
    Delete(usize),
    // The slot whose life-cycle byte changes, and the byte.
    SetLife { slot: usize, life: u8 },
    // From where on so many bytes of the pool are told.
    Read { at: usize, count: usize },
    // From where on the command's data are written into the pool.
    Update(usize),
}

// What judging answers: the effect, or the word of the step that failed.
pub type Verdict = Result<Effect, u16>;

// One step: where it fails, its word.
pub fn require(holds: bool, word: u16) -> Result<(), u16>
    ensures { result ≡ cond holds (Ok tt) (Err word) }
{
    if holds { Ok(()) } else { Err(word) }
}
