// A file made again (02 Tickets 2 and 4): what SELECT told of a file creates the same record on another card, but for parent, level and
// the start of its body. No code: specs/Recreation has the statements, over whole commands and what a call gives.

#![tactic(auto)]
