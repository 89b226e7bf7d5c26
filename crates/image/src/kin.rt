// Identifier and parent slot as one word, and the parent slot alone (02 Ticket 5). They stand side by side in a record, so that a search
// which passes over foreign records asks each for both at once, and the compiler makes one load of the four bytes. The first byte counts
// least, as in the loads of the machines that run this: in the order of the layout every word would have to be turned round first.
ghost use Rattle.std.specs.Prelude.{◌≡◌, ◌+◌, ◌<◌, ◌≤◌, eqb, length};
ghost use Rattle.numbers.specs.Numbers.{u16_at};
ghost use Rattle.image.specs.Layout.{Within, rec_at, parent_of};
ghost use Rattle.image.specs.Kin.{turned, kin_word, KinAt};

// A number's two bytes in the other order.
#[tactic(auto, unfolding(crate::specs::Kin::turned))]
fn turned(x: u16) -> u16
    ensures { result ≡ turned x }
{
    x.swap_bytes()
}

// .. of the number that stands at `at`, read in that order.
#[tactic(auto, unfolding(crate::specs::Kin::turned, numbers::specs::Numbers::u16_at))]
fn turned_at(s: &[u8], at: usize) -> u16
    requires { at + 2 ≤ length s.now }
    ensures { (result ≡ turned (u16_at s.now at)) × (u16_at s.now at < 65536) }
{
    u16::from_le_bytes([s[at], s[at + 1]])
}

// The word of an identifier and a parent slot.
#[tactic(auto, unfolding(crate::specs::Kin::kin_word))]
pub fn word(identifier: u16, parent: u16) -> u32
    ensures { result ≡ kin_word identifier parent }
{
    u32::from(turned(parent)) * 65536 + u32::from(turned(identifier))
}

// The word that stands in record s.
pub fn word_at(image: &[u8], s: usize) -> u32
    requires { Within image.now s }
    ensures { KinAt image.now s result }
{
    let at = 16 + 64 * s + 4;
    u32::from_le_bytes([image[at], image[at + 1], image[at + 2], image[at + 3]])
}

// Whether the parent slot of record s is d. It is read first: what was read tells that no parent is above 65,535.
pub fn stands_in(image: &[u8], s: usize, d: usize) -> bool
    requires { Within image.now s }
    ensures { result ≡ eqb (parent_of (rec_at image.now s)) d }
{
    let parent = turned_at(image, 16 + 64 * s + 6);
    match u16::try_from(d) {
        Ok(d) => parent == turned(d),
        Err(_) => false,
    }
}
