// A security condition: an SC byte against the three sets that the caller gives (01 "Descriptor and
// rules", SC).
ghost use Rattle.std.specs.Prelude.{◌≡◌, ◌<◌, cond, eqb};
ghost use Rattle.rules.specs.Condition.{bit, all_of, one_of, holds_of};

use crate::Sets;

// Bit n of a set of sixteen.
fn has(set: u16, n: u16) -> bool
    requires { n < 16 }
    ensures { result ≡ bit set n }
{
    (set >> n) % 2 == 1
}

// A condition that holds at n where it is named (1); else what one answers that is not named.
fn asked(named: u8, set: u16, n: u16, unnamed: bool) -> bool
    requires { n < 16 }
    ensures { result ≡ cond (eqb named 1) (bit set n) unnamed }
{
    if named == 1 { has(set, n) } else { unnamed }
}

// Of the named conditions, all hold.
#[tactic(auto, unfolding(crate::specs::Condition::all_of, crate::specs::Condition::fulfilled))]
fn all_of(sc: u8, sets: Sets) -> bool
    ensures { result ≡ all_of sc sets }
{
    let n = u16::from(sc % 16);
    asked(sc / 64 % 2, sets.messaging, n, true)
        && asked(sc / 32 % 2, sets.external, n, true)
        && asked(sc / 16 % 2, sets.user, n, true)
}

// Of the named conditions, one holds.
#[tactic(auto, unfolding(crate::specs::Condition::one_of, crate::specs::Condition::met))]
fn one_of(sc: u8, sets: Sets) -> bool
    ensures { result ≡ one_of sc sets }
{
    let n = u16::from(sc % 16);
    asked(sc / 64 % 2, sets.messaging, n, false)
        || asked(sc / 32 % 2, sets.external, n, false)
        || asked(sc / 16 % 2, sets.user, n, false)
}

// Whether the sets satisfy an SC byte.
#[tactic(auto, unfolding(crate::specs::Condition::holds_of))]
pub fn holds(sc: u8, sets: Sets) -> bool
    ensures { result ≡ holds_of sc sets }
{
    match sc {
        0x00 => true,
        0xFF => false,
        _ if sc % 16 == 15 => false,
        _ if sc / 16 % 8 == 0 => false,
        _ if sc / 128 == 1 => all_of(sc, sets),
        _ => one_of(sc, sets),
    }
}
