// Expanded access rules, the value of tag AB: which are well formed, and what one decides (02 Ticket 3: "An AM_DO with tag 80, then one
// or more SC_DOs: 90 always, 97 never, 9E an SC byte, A0 a template of which one must hold, AF of which all must. Templates may nest
// four deep and hold at least two conditions").
//
// A rule is a row of data objects. Templates hold rows of conditions in turn: `condition::is_formed` and `condition::does_hold`
// go down into them, with the depth that is left as the falling number.
#![tactic(auto)]

pub mod condition;
pub mod object;
pub mod rule;
