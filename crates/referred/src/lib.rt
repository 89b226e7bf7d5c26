// Where the rule that decides on a file stands (02 Ticket 7): in the file's own record, or in a record of a linear fixed EF that its rule
// names, looked for from its directory upwards. It is handed back as a part of one of the two lent slices, image or pool, without padding;
// the part is empty where the search denies. What the rule decides is asked of it elsewhere, by `access`.
#![tactic(auto)]

pub mod deciding;
pub mod nearest;
pub mod padding;

// Where a rule stands: from one byte of the image, or of the pool, up to another.
#[derive(Clone, Copy, Debug, PartialEq, Eq)]
pub enum Place {
    InImage { from: usize, to: usize },
    InPool { from: usize, to: usize },
}
