//! Which lists of an index have events of some time, what comes in of these, and the values of a key over
//! all of them. The definitions stand in `specs/`.
#![tactic(auto)]

mod added;
mod laws;
mod lists;
mod values;
mod weight;

pub use added::read_added;
pub use laws::{law_images_have_added, law_images_have_values};
pub use lists::lists_between;
pub use values::{read_values, values_bytes};
pub use weight::lists_bytes;
