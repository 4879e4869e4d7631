//! Reads the text of an input: a deployment of one site, the starter catalog, and a script of calls of
//! `Put` and `Get`. Any other text is refused, with the number of its first line that isn't of this
//! form. Begin with `read_form`; `specs/Form.antt` has the form.
#![tactic(auto)]

mod call;
mod head;
mod laws;
mod lines;
mod number;
mod reader;

pub use call::ScriptCall;
pub use head::HEAD;
pub use laws::{calls_within_bounds, lines_make_the_text, wrong_or_of_form};
pub use reader::{FormFault, LONGEST_INPUT, MOST_CALLS, read_form};
