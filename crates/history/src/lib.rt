// Demand 3: the ledger kept beside the card, and the room of every directory over any history of commands; and the book, what READ gives
// over any history (02 Ticket 4). No code. It stands above the card and the maker, and sees what a call gives (card/specs/Command) and what
// the maker leaves (maker/specs/Making).

#![tactic(auto)]
