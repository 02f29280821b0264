//! Something that bytes are written to.
ghost use Rattle.std.specs.Prelude.{◌≡◌, ◌<◌, ◌≤◌, ℕ, List, length, take, IfOk, OnOk, OnErr, Option};
ghost use Rattle.dg_io.specs.Frame.{CountsOn};
ghost use Rattle.dg_io.specs.Told.{grown, GrowsByPart, CountRose};

use crate::source::Failed;

/// Something that bytes are written to.
pub trait Sink {
    // The bytes written so far, where the sink tells them.
    ghost written: { Self → Option (List ℕ) };

    // How many calls have failed. It never falls.
    ghost faults: { Self → ℕ };

    /// Writes bytes from the front of `piece`, and answers how many: at least one, unless the piece
    /// is empty. `Failed` where the object failed: then nothing is written.
    fn write(&mut self, piece: &[u8]) -> Result<usize, Failed>
        ensures bound { IfOk result (λ c. c ≤ length piece.now) }
        ensures some { IfOk result (λ c. 0 < length piece.now → 0 < c) }
        ensures gained { IfOk result (λ c. written self.new ≡ grown (written self.old) (take c piece.now)) }

        // errors
        ensures err { OnErr result (written self.new ≡ written self.old) }
        ensures cause { OnErr result (CountRose (faults self.old) (faults self.new)) }

        // frame
        ensures counted { faults self.old ≤ faults self.new };
}

/// Writes the whole piece, by as many writes as the sink needs. `Failed` where a write failed: then
/// a part of the piece is written, and never all of it.
pub fn write_whole<K: Sink>(sink: &mut K, piece: &[u8]) -> Result<(), Failed>
    ensures ok { OnOk result (K.written sink.new ≡ grown (K.written sink.old) piece.now) }
    ensures err { OnErr result (GrowsByPart (K.written sink.old) piece.now (K.written sink.new)) }
    ensures cause { OnErr result (CountRose (K.faults sink.old) (K.faults sink.new)) }
    ensures counted { CountsOn (K.faults sink.old) (K.faults sink.new) }
{
    let mut done = 0;
    while done < piece.len() {
        done += sink.write(&piece[done..])?;
    }
    Ok(())
}
