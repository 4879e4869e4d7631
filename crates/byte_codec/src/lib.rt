//! Values as bytes, written and read again exactly. Begin with `specs/Readers.antt`, which says what
//! a reader is, and `specs/Exactness.antt`, which says when one is exact; then `Form`.
#![tactic(auto)]

mod form;
pub mod laws;
mod lists;
mod numbers;
mod text;
mod unread;

pub use form::{Form, read_whole, spell, spellings_are_prefix_free};
pub use lists::{put_list, put_short_list, read_list, read_many, read_short_list};
pub use numbers::{put_i128, read_i128, read_u8, read_u16, read_u32, read_u64};
pub use text::{put_body, read_body};
pub use unread::Unread;
