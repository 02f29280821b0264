/// The form of an index file: how its header and its directories are laid out. docs/FORMATS.md has both.
#[derive(Clone, Copy, PartialEq, Eq)]
pub enum Form {
    /// The first form: three columns, and no skewed function.
    One,
    /// The first form for this many batches, and the second behind the marker that follows them.
    Upgraded(u32),
    /// The second form: four columns, of which the fourth has messages.
    Two,
}
