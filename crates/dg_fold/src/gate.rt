//! What is told of the halves of a plan.

/// What each half of a plan that is cut for two threads passes before its work begins. It lets a test see
/// that both halves are at work at once.
pub trait Gate: Sync {
    /// Passed by the left half with `false`, by the right half with `true`. Promises nothing but to return.
    fn enter(&self, right: bool);
}

/// The gate that does nothing.
#[derive(Clone, Copy)]
pub struct Open;

impl Gate for Open {
    fn enter(&self, _right: bool) {}
}
