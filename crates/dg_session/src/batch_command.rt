//! The commands that add a batch.

ghost use Rattle.std.specs.Prelude.{◌≡◌, length};
ghost use Rattle.dg_session.specs.BatchCommand.{batch_head};

use dg_append::AddedBatch;
use dg_machine::Head;

/// The command that adds a batch.
#[derive(Clone, Copy)]
pub enum BatchCommand {
    /// The first batch.
    Load,
    /// The next batch.
    Append,
}

impl BatchCommand {
    /// The first line of the reply where this was added.
    pub fn head(self, added: AddedBatch) -> Head
        ensures { result ≡ batch_head self (length added.events.items) added.total added.last }
    {
        let AddedBatch {
            events,
            total,
            last,
        } = added;
        let events = events.len() as u64;
        match self {
            BatchCommand::Load => Head::Loaded {
                events,
                total,
                last,
            },
            BatchCommand::Append => Head::Appended {
                events,
                total,
                last,
            },
        }
    }
}
