//! The commands that make an index.

ghost use Rattle.std.specs.Prelude.{◌≡◌, nat_le, true};
ghost use Rattle.dg_graph.specs.declared.limits.TheConstants.{SKEW_MAX};
ghost use Rattle.dg_history.specs.History.{is_function};
ghost use Rattle.dg_session.specs.CreationCommand.{function_asked, share_asked};

use dg_graph::Function;

/// The differential function of an index that is to be made, as the command says it.
#[derive(Clone, Copy)]
pub enum AskedFunction {
    /// This one.
    Named(Function),
    /// A skewed one, with so many of 256 parts from the last child.
    Share(u32),
}

impl AskedFunction {
    /// The share that it says, where it says one.
    pub fn share(self) -> u32
        ensures { result ≡ share_asked self }
    {
        match self {
            AskedFunction::Named(Function::Skewed(r)) => u32::from(r),
            AskedFunction::Named(_) => 0,
            AskedFunction::Share(r) => r,
        }
    }

    /// The function. The share that it says is in its range.
    pub fn function(self) -> Function
        requires { nat_le (share_asked self) SKEW_MAX ≡ true }
        ensures function { result ≡ function_asked self }
        ensures fits { is_function result ≡ true }
    {
        match self {
            AskedFunction::Named(function) => function,
            AskedFunction::Share(r) => Function::Skewed(r as u16),
        }
    }
}
