//! The calls of a script.

ghost use Rattle.std.specs.Prelude.{◌≡◌};
ghost use Rattle.volt_form.specs.Form.{put_of_numbers, get_of_number, call_of_line};

use crate::lines::{after, cut_at};
use crate::number::read_number;

/// A call that a script's line makes. Its numbers are from `-(2^63 - 1)` to `2^63 - 1`.
#[derive(Clone, Copy, Debug, PartialEq, Eq)]
pub enum ScriptCall {
    /// Puts an account with this balance under this id.
    Put { id: i64, balance: i64 },
    /// Asks for the balance of the account with this id.
    Get { id: i64 },
}

/// The call of the numbers of a Put.
#[tactic(auto, using(crate::proofs::CallLemmas::put_of_no_space), unfolding(crate::specs::Form::put_of_numbers))]
fn read_put(numbers: &[u8]) -> Option<ScriptCall>
    ensures { result ≡ put_of_numbers numbers.now }
{
    let (id, balance) = cut_at(numbers, b' ')?;
    Some(ScriptCall::Put {
        id: read_number(id)?,
        balance: read_number(balance)?,
    })
}

/// The call of the number of a Get.
#[tactic(auto, unfolding(crate::specs::Form::get_of_number))]
fn read_get(number: &[u8]) -> Option<ScriptCall>
    ensures { result ≡ get_of_number number.now }
{
    Some(ScriptCall::Get {
        id: read_number(number)?,
    })
}

/// The call of a script's line, where it is one.
#[tactic(auto, unfolding(crate::specs::Form::call_of_line))]
pub fn read_call(line: &[u8]) -> Option<ScriptCall>
    ensures { result ≡ call_of_line line.now }
{
    if let Some(numbers) = after(line, b"client 1 call Put ") {
        return read_put(numbers);
    }
    read_get(after(line, b"client 1 call Get ")?)
}
