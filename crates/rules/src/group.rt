// One group of a compact rule: an AM byte and one SC byte for each of its set bits b7 to b1, the highest
// first (01 "Descriptor and rules", compact rule). Total for any bytes: a group that runs past the end of
// its rule has FF, never, for the SC bytes that are not there.
ghost use Rattle.std.specs.Prelude.{◌≡◌, ◌+◌, ◌<◌, length};
ghost use Rattle.rules.specs.Group.{b7, b6, b5, b4, b3, b2, b1, sc_at, slots_of, next_of, Lengths};

// How many bytes the group of each AM byte has: itself and an SC byte for each set bit; 0 where b8 is set.
const LENGTH: [u8; 256] = [
    1, 2, 2, 3, 2, 3, 3, 4, 2, 3, 3, 4, 3, 4, 4, 5, // 00
    2, 3, 3, 4, 3, 4, 4, 5, 3, 4, 4, 5, 4, 5, 5, 6, // 10
    2, 3, 3, 4, 3, 4, 4, 5, 3, 4, 4, 5, 4, 5, 5, 6, // 20
    3, 4, 4, 5, 4, 5, 5, 6, 4, 5, 5, 6, 5, 6, 6, 7, // 30
    2, 3, 3, 4, 3, 4, 4, 5, 3, 4, 4, 5, 4, 5, 5, 6, // 40
    3, 4, 4, 5, 4, 5, 5, 6, 4, 5, 5, 6, 5, 6, 6, 7, // 50
    3, 4, 4, 5, 4, 5, 5, 6, 4, 5, 5, 6, 5, 6, 6, 7, // 60
    4, 5, 5, 6, 5, 6, 6, 7, 5, 6, 6, 7, 6, 7, 7, 8, // 70
    0, 0, 0, 0, 0, 0, 0, 0, 0, 0, 0, 0, 0, 0, 0, 0, // 80 to FF: b8 is set
    0, 0, 0, 0, 0, 0, 0, 0, 0, 0, 0, 0, 0, 0, 0, 0, // 90
    0, 0, 0, 0, 0, 0, 0, 0, 0, 0, 0, 0, 0, 0, 0, 0, // A0
    0, 0, 0, 0, 0, 0, 0, 0, 0, 0, 0, 0, 0, 0, 0, 0, // B0
    0, 0, 0, 0, 0, 0, 0, 0, 0, 0, 0, 0, 0, 0, 0, 0, // C0
    0, 0, 0, 0, 0, 0, 0, 0, 0, 0, 0, 0, 0, 0, 0, 0, // D0
    0, 0, 0, 0, 0, 0, 0, 0, 0, 0, 0, 0, 0, 0, 0, 0, // E0
    0, 0, 0, 0, 0, 0, 0, 0, 0, 0, 0, 0, 0, 0, 0, 0, // F0
];

// The table, for a caller that asks often and lends it: it is built again at each use.
pub fn lengths() -> [u8; 256]
    ensures { Lengths result }
{
    LENGTH
}

// The SC byte at a place, for a bit that is set (1); FF, never, for one that is not.
#[tactic(auto, unfolding(crate::specs::Group::sc_at))]
fn sc_at(rule: &[u8], at: usize, on: u8) -> u8
    ensures { result ≡ sc_at rule.now at on }
{
    if on == 1 && at < rule.len() {
        rule[at]
    } else {
        0xFF
    }
}

// The seven condition slots of the group at `at`: slot 0 is b7, slot 6 is b1. No loop: so they stand one by one as in `slots_of`, and a
// loop would need the sum so far as its invariant.
#[tactic(auto, unfolding(crate::specs::Group::slots_of))]
pub fn unpack(rule: &[u8], at: usize) -> [u8; 7]
    requires { at < length rule.now }
    ensures { result ≡ slots_of rule.now at }
{
    let am = rule[at];
    let b7 = at + 1;
    let b6 = b7 + usize::from(am / 64 % 2);
    let b5 = b6 + usize::from(am / 32 % 2);
    let b4 = b5 + usize::from(am / 16 % 2);
    let b3 = b4 + usize::from(am / 8 % 2);
    let b2 = b3 + usize::from(am / 4 % 2);
    let b1 = b2 + usize::from(am / 2 % 2);
    [
        sc_at(rule, b7, am / 64 % 2),
        sc_at(rule, b6, am / 32 % 2),
        sc_at(rule, b5, am / 16 % 2),
        sc_at(rule, b4, am / 8 % 2),
        sc_at(rule, b3, am / 4 % 2),
        sc_at(rule, b2, am / 2 % 2),
        sc_at(rule, b1, am % 2),
    ]
}

// How many of the bits b7 to b1 are set, all at once: a product puts each of them alone into four bits of a
// number, and a second one sums them up.
fn set_bits(am: u8) -> usize
    ensures { (result ≡ b7 am + b6 am + b5 am + b4 am + b3 am + b2 am + b1 am) × (result < 16) }
{
    let seven = (am % 128) as u64;
    let alone = (seven * 0x08040201 / 8) & 0x11111111;
    (alone * 0x11111111 / 0x10000000 % 16) as usize
}

// The place after the group at `at`.
#[tactic(auto, unfolding(crate::specs::Group::next_of))]
pub fn next(rule: &[u8], at: usize) -> usize
    requires { at < length rule.now }
    ensures { result ≡ next_of rule.now at }
{
    at + 1 + set_bits(rule[at])
}
