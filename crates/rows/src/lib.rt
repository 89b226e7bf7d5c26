// What computes, beside what the documents say: the rows W1 to W10 (01 "Both sides of each line") as one table with one theorem,
// SELECT's tries, every life-cycle byte through whole calls (02 Ticket 1), templates (Ticket 2), rules of both forms (Ticket 3), file
// bodies (Ticket 4), and a fresh card byte by byte. No code. It stands above every crate whose definitions a row asks.

#![tactic(auto)]
