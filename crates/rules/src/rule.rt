// Compact access rules (01 "Descriptor and rules"): what is well formed, and what a rule decides. Rules of any form are
// asked through `access`, and there alone.
ghost use Rattle.std.specs.Prelude.{◌≡◌, ◌<◌, ◌≤◌, length};
ghost use Rattle.rules.specs.Group.{Lengths};
ghost use Rattle.rules.specs.Rule.{compact_formed, slot_of, compact_grants, allows_of};

use crate::{Right, Sets, condition, group};

// The walks here go on by what a group's length is: an iterator over the groups would hand out places, and whoever takes one
// would have to show again that it is within the rule.

// Whether the groups fill the rule exactly, with b8 clear in each AM byte.
pub fn well_formed(rule: &[u8]) -> bool
    ensures { result ≡ compact_formed rule.now }
{
    let mut at: usize = 0;
    while at < rule.len() {
        if 127 < rule[at] {
            return false;
        }
        let to = group::next(rule, at);
        if rule.len() < to {
            return false;
        }
        at = to;
    }
    true
}

// The same with the table of lengths, for rules of several groups. A group without SC bytes goes on by a constant, so that the
// next one does not wait for the table.
fn groups_by(rule: &[u8], lengths: &[u8; 256]) -> bool
    requires { Lengths lengths.now }
    ensures { result ≡ compact_formed rule.now }
{
    let mut at: usize = 0;
    while at < rule.len() {
        let am = usize::from(rule[at]);
        if am == 0 {
            at += 1;
            continue;
        }
        let n = usize::from(lengths[am]);
        if n == 0 {
            return false;
        }
        if rule.len() - at < n {
            return false;
        }
        at += n;
    }
    true
}

// .. and where one group fills the rule, as in most, that is one look.
pub fn formed_by(rule: &[u8], lengths: &[u8; 256]) -> bool
    requires { (1 ≤ length rule.now) × Lengths lengths.now }
    ensures { result ≡ compact_formed rule.now }
{
    let am = usize::from(rule[0]);
    if usize::from(lengths[am]) == rule.len() {
        return true;
    }
    groups_by(rule, lengths)
}

impl Right {
    // The slot of a right's bit in a group: slot 0 is b7, slot 6 is b1.
    pub fn slot(self) -> usize
        ensures { (result ≡ slot_of self) × (result < 7) }
    {
        match self {
            Right::DeleteSelf => 0,
            Right::Terminate => 1,
            Right::Activate => 2,
            Right::Deactivate => 3,
            Right::CreateDf => 4,
            Right::CreateEf | Right::Update => 5,
            Right::DeleteChild | Right::Read => 6,
        }
    }
}

// Whether one of the groups allows what slot k stands for.
fn allows(rule: &[u8], k: usize, sets: Sets) -> bool
    requires { k < 7 }
    ensures { result ≡ allows_of rule.now k sets }
{
    let mut here: usize = 0;
    while here < rule.len() {
        let slots = group::unpack(rule, here);
        let sc = slots[k];
        if condition::holds(sc, sets) {
            return true;
        }
        here = group::next(rule, here);
    }
    false
}

// What the rule decides on a right, under what has been authenticated.
#[tactic(auto, unfolding(crate::specs::Rule::compact_grants))]
pub fn granted(rule: &[u8], right: Right, sets: Sets) -> bool
    ensures { result ≡ compact_grants rule.now right sets }
{
    allows(rule, right.slot(), sets)
}
