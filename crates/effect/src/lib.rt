// The second half of a command (judge, then apply): the one effect of a verdict on the image and the pool, which cannot fail, and
// its word. It answers the effects of 01: SELECT ("A DF becomes current with no EF; an EF becomes current EF"), CREATE
// ("Effect"), DELETE ("It and all beneath become zero records; a deleted current EF becomes none"), and the new
// life-cycle byte of ACTIVATE, DEACTIVATE and TERMINATE; and of 02 Ticket 4: a new body, wiped bodies, UPDATE. Which of them is due, and
// on which slot, is decided before. What is told of it (02 Tickets 2 and 4) is written first, by `tell`, which fails where the response
// is too short.
#![tactic(auto)]

pub mod apply;
pub mod erase;
pub mod tell;
