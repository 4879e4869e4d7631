//! Values of the database: their order, the types of columns that hold them, and their one spelling
//! as bytes.
#![tactic(auto)]

mod column;
mod order;
mod reading;
mod spelling;
mod text;
mod value;

pub use column::{Class, ColType, Misfit, fits};
pub use order::{compare, order_is_total};
pub use reading::decode;
pub use spelling::{encode, one_spelling};
pub use text::Text;
pub use value::Value;

#[cfg(test)]
mod tests;
