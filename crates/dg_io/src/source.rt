//! Something that bytes are read from.
ghost use Rattle.std.specs.Prelude.{◌≡◌, ◌<◌, ◌≤◌, ℕ, List, length, take, IfOk, OnErr, Option};
ghost use Rattle.dg_io.specs.Told.{Gives, IsAtEnd, CountRose};

use thiserror::Error;

/// The failure of one call of a source or a sink. The object's count of failures rose in that call.
#[derive(Clone, Copy, Debug, PartialEq, Eq, Error)]
#[error("a call of the source or the sink failed")]
pub struct Failed;

/// Something that bytes are read from.
pub trait Source {
    // The bytes still to be read, where the source tells them.
    ghost left: { Self → Option (List ℕ) };

    // How many calls have failed. It never falls.
    ghost faults: { Self → ℕ };

    /// Reads bytes into the front of `into`, and answers how many. None into a slice with room is
    /// the end of input. `Failed` where the object failed: then nothing is read.
    fn read(&mut self, into: &mut [u8]) -> Result<usize, Failed>
        ensures bound { IfOk result (λ c. c ≤ length into.new) }
        ensures given { IfOk result (λ c. Gives (left self.old) (take c into.new) (left self.new)) }
        ensures end { IfOk result (λ c. c ≡ 0 → 0 < length into.new → IsAtEnd (left self.old)) }

        // errors
        ensures err { OnErr result (left self.new ≡ left self.old) }
        ensures cause { OnErr result (CountRose (faults self.old) (faults self.new)) }

        // frame
        ensures counted { faults self.old ≤ faults self.new };
}
