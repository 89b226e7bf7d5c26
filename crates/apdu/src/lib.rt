// The bytes of a command and the tests of the steps A to G, which all commands share (01 "The order in which a command
// is judged"), and the parts of a command.
#![tactic(auto)]

ghost use Rattle.std.specs.Prelude.{◌≡◌, cond, ◌≤◌, length};
ghost use Rattle.verdict.specs.Applied.{sent_data};
ghost use Rattle.apdu.specs.Apdu.{is_terminate, is_old, is_known, wants_alone, other_channel, crowded, wants_template, good_parameters};
ghost use Rattle.apdu.specs.Apdu.{fit_parameters, is_seven, is_eight, is_five, has_data, fit_length, on_other_channel, sent_identifier};

use verdict::State;

pub mod bodies;

// The instructions of 01 by their names, the same as in specs/Apdu. No enum: an instruction is a byte of a command, and each byte is
// answered.
pub const SELECT_FILE: u8 = 0xA4;

pub const CREATE_FILE: u8 = 0xE0;

pub const DELETE_FILE: u8 = 0xE4;

pub const ACTIVATE_FILE: u8 = 0x44;

pub const DEACTIVATE_FILE: u8 = 0x04;

pub const TERMINATE_EF: u8 = 0xE8;

pub const TERMINATE_DF: u8 = 0xE6;

pub const TERMINATE_CARD: u8 = 0xFE;

#[tactic(auto, unfolding(crate::specs::Apdu::is_terminate))]
fn is_terminate(i: u8) -> bool
    ensures { result ≡ is_terminate i }
{
    matches!(i, TERMINATE_EF | TERMINATE_DF | TERMINATE_CARD)
}

// An instruction of 01.
#[tactic(auto, unfolding(crate::specs::Apdu::is_old))]
fn is_old(i: u8) -> bool
    ensures { result ≡ is_old i }
{
    matches!(
        i,
        SELECT_FILE | CREATE_FILE | DELETE_FILE | ACTIVATE_FILE | DEACTIVATE_FILE
    ) || is_terminate(i)
}

// An instruction that a card of version v has.
#[tactic(auto, unfolding(crate::specs::Apdu::is_known))]
pub fn is_known(v: u32, i: u8) -> bool
    ensures { result ≡ is_known v i }
{
    is_old(i) || (image::version::has_bodies(v) && bodies::is_body(i))
}

#[tactic(auto, unfolding(crate::specs::Apdu::wants_alone))]
fn wants_alone(i: u8) -> bool
    ensures { result ≡ wants_alone i }
{
    matches!(i, CREATE_FILE | DELETE_FILE) || is_terminate(i)
}

#[tactic(auto, unfolding(crate::specs::Apdu::other_channel))]
fn other_channel(state: State) -> bool
    ensures { result ≡ other_channel state }
{
    state.channels / 2 % 8 != 0
}

// Whether another channel stands in the way (step E).
#[tactic(auto, unfolding(crate::specs::Apdu::crowded))]
pub fn is_crowded(i: u8, state: State) -> bool
    ensures { result ≡ crowded i state }
{
    wants_alone(i) && other_channel(state)
}

// Whether SELECT's P2 asks for the template.
#[tactic(auto, unfolding(crate::specs::Apdu::wants_template))]
pub fn wants_template(command: &[u8]) -> bool
    ensures { result ≡ wants_template command.now }
{
    4 <= command.len() && command[3] == 0x04
}

// P1 P2, as one number, as the instruction wants them.
#[tactic(auto, unfolding(crate::specs::Apdu::good_parameters))]
fn good_parameters(i: u8, p: u16) -> bool
    ensures { result ≡ good_parameters i p }
{
    if i == SELECT_FILE {
        return matches!(p, 0x000C | 0x0004);
    }
    if bodies::is_binary(i) {
        return p < 0x8000;
    }
    if bodies::is_record(i) {
        return p % 256 == 0x04;
    }
    p == 0x0000
}

#[tactic(auto, unfolding(crate::specs::Apdu::fit_parameters))]
pub fn fit_parameters(command: &[u8]) -> bool
    requires { 4 ≤ length command.now }
    ensures { result ≡ fit_parameters command.now }
{
    good_parameters(command[1], numbers::u16_at(command, 2))
}

// Seven bytes with Lc 2: SELECT and DELETE.
#[tactic(auto, unfolding(crate::specs::Apdu::is_seven))]
fn is_seven(command: &[u8]) -> bool
    ensures { result ≡ is_seven command.now }
{
    command.len() == 7 && command[4] == 2
}

// Eight bytes with Lc 2 and Le 00: SELECT that asks for the template.
#[tactic(auto, unfolding(crate::specs::Apdu::is_eight))]
fn is_eight(command: &[u8]) -> bool
    ensures { result ≡ is_eight command.now }
{
    command.len() == 8 && command[4] == 2 && command[7] == 0x00
}

// Five bytes: READ.
#[tactic(auto, unfolding(crate::specs::Apdu::is_five))]
fn is_five(command: &[u8]) -> bool
    ensures { result ≡ is_five command.now }
{
    command.len() == 5
}

// 5 + Lc bytes with Lc at least 1: CREATE, UPDATE.
#[tactic(auto, unfolding(crate::specs::Apdu::has_data))]
fn has_data(command: &[u8]) -> bool
    ensures { result ≡ has_data command.now }
{
    6 <= command.len() && command.len() == 5 + usize::from(command[4])
}

// As long as SELECT's P2 wants it.
fn select_length(command: &[u8]) -> bool
    requires { 4 ≤ length command.now }
    ensures { result ≡ cond (wants_template command.now) (is_eight command.now) (is_seven command.now) }
{
    if wants_template(command) {
        is_eight(command)
    } else {
        is_seven(command)
    }
}

#[tactic(auto, unfolding(crate::specs::Apdu::fit_length))]
pub fn fit_length(command: &[u8]) -> bool
    requires { 4 ≤ length command.now }
    ensures { result ≡ fit_length command.now }
{
    match command[1] {
        CREATE_FILE => has_data(command),
        i if bodies::is_update(i) => has_data(command),
        i if bodies::is_read(i) => is_five(command),
        SELECT_FILE => select_length(command),
        DELETE_FILE => is_seven(command),
        _ => command.len() == 4,
    }
}

#[tactic(auto, unfolding(crate::specs::Apdu::on_other_channel))]
pub fn on_other_channel(class: u8) -> bool
    ensures { result ≡ on_other_channel class }
{
    matches!(class, 1..=3)
}

// The identifier that SELECT and DELETE send.
pub fn sent_identifier(command: &[u8]) -> u16
    requires { 7 ≤ length command.now }
    ensures { result ≡ sent_identifier command.now }
{
    numbers::u16_at(command, 5)
}

// The data of CREATE and UPDATE: a part of the command.
pub fn sent_data(command: &[u8]) -> &[u8]
    requires { 5 ≤ length command.now }
    ensures { result.now ≡ sent_data command.now }
{
    &command[5..]
}
