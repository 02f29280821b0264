//! What makes an index file sound: the records that its own events determine, and the first record that is not as they
//! determine it. The plain type of the answer, and, in `specs/`, the definitions. docs/MODEL.md is their prose.
#![tactic(auto)]

mod soundness;

pub use soundness::Soundness;
