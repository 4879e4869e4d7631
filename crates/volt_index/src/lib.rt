//! An ordered index of a table: from the spelling of a key's values to the places of the rows that
//! have them. `Index` is where to begin; `Key` is the spelling.
#![tactic(auto)]

mod entry;
mod fault;
mod index;
mod key;
mod laws;
mod range;

pub use fault::IndexFault;
pub use index::Index;
pub use key::{Key, end_of, key_of};
pub use laws::keys_are_in_order;
pub use range::IndexRange;
