// What the bytes of an image must satisfy place by place, before any record looks at another: the header, and each
// record by itself (01 "Image").
//
// What a record must satisfy by itself is said in sound/specs/Own, since a sound image is defined there.
//
// It is the larger part of the test that every command makes of the whole image, so each test is in the shape that
// runs fast.
#![tactic(auto)]

pub mod blank;
pub mod header;
pub mod own;
