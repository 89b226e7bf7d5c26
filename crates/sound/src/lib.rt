// What a sound image is (01 "Image", 02 Ticket 4), as statements alone: no code stands here.
//
// specs/ has the test `soundb` and the record `Sound`, sentence by sentence from 01, the kinship of files and what
// each effect leaves of image and pool; proofs/ has that test and record agree, that each effect keeps an image sound, that the maker's
// image is sound, and that a directory with room never meets a full table.

#![tactic(auto)]
