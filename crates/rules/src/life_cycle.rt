// The life-cycle byte, only through its class (01 "Image", offset 2; 01 "CREATE" and "ACTIVATE"; 02 Ticket 1).
ghost use Rattle.std.specs.Prelude.{◌≡◌};
ghost use Rattle.rules.specs.Life.{life_of, known_life, new_life, is_activated, is_deactivated, is_terminated, can_activate};

// The bytes that the card itself writes. No enum: a record keeps them as they are.
pub const ACTIVATED_BYTE: u8 = 0x05;

pub const DEACTIVATED_BYTE: u8 = 0x04;

pub const TERMINATED_BYTE: u8 = 0x0C;

// The classes.
#[derive(Clone, Copy, PartialEq, Eq)]
pub enum Life {
    Creation,
    Initialisation,
    Activated,
    Deactivated,
    Terminated,
}

// The class of a life-cycle byte; none where the byte is no life cycle. Only here is such a byte compared with a number.
#[tactic(auto, unfolding(crate::specs::Life::life_of))]
pub fn class(x: u8) -> Option<Life>
    ensures { result ≡ life_of x }
{
    match x {
        0x01 => Some(Life::Creation),
        0x03 => Some(Life::Initialisation),
        0x04 | 0x06 => Some(Life::Deactivated),
        0x05 | 0x07 => Some(Life::Activated),
        0x0C => Some(Life::Terminated),
        _ => None,
    }
}

// A byte that a record may hold.
#[tactic(auto, unfolding(crate::specs::Life::known_life))]
pub fn is_known(x: u8) -> bool
    ensures { result ≡ known_life x }
{
    class(x).is_some()
}

// A byte that CREATE FILE takes for a new file.
#[tactic(auto, unfolding(crate::specs::Life::new_life))]
pub fn is_new(x: u8) -> bool
    ensures { result ≡ new_life x }
{
    is_known(x) && !is_terminated(x)
}

pub fn is_activated(x: u8) -> bool
    ensures { result ≡ is_activated x }
{
    class(x) == Some(Life::Activated)
}

pub fn is_deactivated(x: u8) -> bool
    ensures { result ≡ is_deactivated x }
{
    class(x) == Some(Life::Deactivated)
}

pub fn is_terminated(x: u8) -> bool
    ensures { result ≡ is_terminated x }
{
    matches!(class(x), Some(Life::Terminated))
}

// A file that ACTIVATE FILE takes to activated.
#[tactic(auto, unfolding(crate::specs::Life::can_activate))]
pub fn can_activate(x: u8) -> bool
    ensures { result ≡ can_activate x }
{
    matches!(
        class(x),
        Some(Life::Creation | Life::Initialisation | Life::Deactivated)
    )
}
