//! How far the changes of a batch's lines are kept.

/// How far the changes of a batch's lines are kept.
#[derive(Clone, Copy)]
pub enum Front {
    /// Each line is a change, and all are kept.
    Whole,
    /// Those before the first line that is no change are kept.
    Form,
    /// Not all of these are kept: they are not wanted, or memory lacked.
    Unkept,
}
