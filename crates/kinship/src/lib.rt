// Who is whose child, what lies above a file, what room is left, how many children there are: the searches and walks
// over the records of a sound image. It answers the searches that 01 "SELECT", "CREATE" and "DELETE" speak of, the sum
// of "Image" and the count of direct children of "Making and reporting".
#![tactic(auto)]

pub mod climb;
pub mod count;
pub mod names;
pub mod room;
pub mod search;
