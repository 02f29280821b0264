//! How a run over a script ends.

/// How a run over a script ends.
#[derive(Clone, Copy, Debug, PartialEq, Eq)]
pub enum End {
    /// The script was read to its end, and every reply was written.
    Done,
    /// A read of the script failed.
    SourceFault,
    /// A write of a reply failed.
    SinkFault,
    /// As many bytes of the script as the limit were taken, and another is needed.
    ScriptLimit,
    /// What the machine writes to failed.
    Broken,
}
