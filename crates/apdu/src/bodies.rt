// The commands on bodies (02 Ticket 4): their instructions by name, which of them an instruction is, and what they send.
ghost use Rattle.std.specs.Prelude.{◌≡◌, ◌<◌, ◌≤◌, length};
ghost use Rattle.apdu.specs.Apdu.{is_binary, is_record, is_read, is_update, is_body, parameters, record_number, asked};

// No enum, as in `apdu`: an instruction is a byte of a command, and each byte is answered.
pub const READ_BINARY: u8 = 0xB0;

pub const UPDATE_BINARY: u8 = 0xD6;

pub const READ_RECORD: u8 = 0xB2;

pub const UPDATE_RECORD: u8 = 0xDC;

// READ or UPDATE BINARY; READ or UPDATE RECORD; READ of either kind; UPDATE of either kind.
#[tactic(auto, unfolding(crate::specs::Apdu::is_binary))]
pub fn is_binary(i: u8) -> bool
    ensures { result ≡ is_binary i }
{
    matches!(i, READ_BINARY | UPDATE_BINARY)
}

#[tactic(auto, unfolding(crate::specs::Apdu::is_record))]
pub fn is_record(i: u8) -> bool
    ensures { result ≡ is_record i }
{
    matches!(i, READ_RECORD | UPDATE_RECORD)
}

#[tactic(auto, unfolding(crate::specs::Apdu::is_read))]
pub fn is_read(i: u8) -> bool
    ensures { result ≡ is_read i }
{
    matches!(i, READ_BINARY | READ_RECORD)
}

#[tactic(auto, unfolding(crate::specs::Apdu::is_update))]
pub fn is_update(i: u8) -> bool
    ensures { result ≡ is_update i }
{
    matches!(i, UPDATE_BINARY | UPDATE_RECORD)
}

// One of the four commands on bodies.
#[tactic(auto, unfolding(crate::specs::Apdu::is_body))]
pub fn is_body(i: u8) -> bool
    ensures { result ≡ is_body i }
{
    is_binary(i) || is_record(i)
}

// P1 P2 as one number: the start that READ and UPDATE BINARY send.
pub fn sent_start(command: &[u8]) -> u16
    requires { 4 ≤ length command.now }
    ensures { result ≡ parameters command.now }
{
    numbers::u16_at(command, 2)
}

// P1: the record number that READ and UPDATE RECORD send.
pub fn record_number(command: &[u8]) -> usize
    requires { 4 ≤ length command.now }
    ensures { (result ≡ record_number command.now) × (result < 256) }
{
    usize::from(command[2])
}

// How many bytes a command on a body is about: a READ's Le, 00 being 256, an UPDATE's Lc.
#[tactic(auto, unfolding(crate::specs::Apdu::asked))]
pub fn asked(command: &[u8]) -> usize
    requires { 5 ≤ length command.now }
    ensures { (result ≡ asked command.now) × (result ≤ 256) }
{
    match usize::from(command[4]) {
        0 if is_read(command[1]) => 256,
        n => n,
    }
}
