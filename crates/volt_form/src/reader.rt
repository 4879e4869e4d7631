//! Reads a whole text.

ghost use Rattle.std.specs.Prelude.{◌≡◌, ◌+◌, ◌<◌, ◌≤◌, [], List, None, Some, IfOk, IfErr, Err, ℕ, length};
ghost use Rattle.volt_form.specs.Form.{head_size, most_calls, lines_of, calls_of_lines, calls_of_text, wrong_call, first_wrong_line};

use crate::call::{ScriptCall, read_call};
use crate::head::read_head;
use crate::lines::next_line;
use std::alloc::{AllocFailed, Global};

/// The greatest length of a text, in bytes.
pub const LONGEST_INPUT: usize = 67_108_864;

/// The greatest number of calls in a text.
pub const MOST_CALLS: usize = 100_000;

/// The number of the first line that may be a call, from 1.
const FIRST_CALL: u32 = 29;

/// Why a text was not read.
#[derive(Clone, Copy, Debug, PartialEq, Eq)]
pub enum FormFault {
    /// The text isn't of the form; the number is that of its first line that isn't, from 1.
    NotOfForm { line: u32 },
    /// Out of memory.
    NoMemory,
}

impl<T: Drop> From<AllocFailed<T>> for FormFault {
    ghost use Rattle.std.specs.Prelude.{◌≡◌};
    ghost use Rattle.volt_form.specs.declared.reader.FormFault.TheVariants.{NoMemory};

    ghost from_gives = { λ _ fault. fault ≡ NoMemory };

    fn from(_failed: AllocFailed<T>) -> FormFault {
        FormFault::NoMemory
    }
}

/// The fault of a line that is no call, behind so many calls.
fn wrong_line(met: usize) -> FormFault
    requires { met ≤ most_calls }
    ensures { result ≡ FormFault.NotOfForm (head_size + 1 + met) }
{
    FormFault::NotOfForm {
        line: FIRST_CALL + met as u32,
    }
}

/// Reads the lines after the head.
fn read_calls(alloc: Global, text: &[u8]) -> Result<Vec<ScriptCall>, FormFault>
    ensures calls { IfOk result (λ calls. calls_of_lines (lines_of text.now).ended ≡ Some calls.items) }
    ensures passes { IfOk result (λ calls.
        wrong_call (head_size + 1) (lines_of text.now).ended (lines_of text.now).rest ≡ None) }
    ensures refused { (line : ℕ) → result ≡ Err (FormFault.NotOfForm line)
        → wrong_call (head_size + 1) (lines_of text.now).ended (lines_of text.now).rest ≡ Some line }
{
    let mut calls = Vec::new(alloc);
    let mut rest = text;
    while let Some((line, after)) = next_line(rest) {
        if calls.len() == MOST_CALLS {
            return Err(wrong_line(calls.len()));
        }
        match read_call(line) {
            Some(call) => calls.push(call)?,
            None => return Err(wrong_line(calls.len())),
        }
        rest = after;
    }
    if rest.is_empty() {
        Ok(calls)
    } else {
        Err(wrong_line(calls.len()))
    }
}

/// Reads a text of the form, and answers its calls in their order.
pub fn read_form(alloc: Global, text: &[u8]) -> Result<Vec<ScriptCall>, FormFault>
    ensures ok { IfOk result (λ calls. calls_of_text text.now ≡ Some calls.items) }
    ensures refused { (line : ℕ) → result ≡ Err (FormFault.NotOfForm line)
        → (calls_of_text text.now ≡ None) × (first_wrong_line text.now ≡ Some line) }
{
    if text.len() > LONGEST_INPUT {
        return Err(FormFault::NotOfForm { line: 1 });
    }
    match read_head(text) {
        Ok(after) => read_calls(alloc, after),
        Err(line) => Err(FormFault::NotOfForm { line }),
    }
}

#[cfg(test)]
mod tests {
    use super::*;
    use crate::head::HEAD;
    use std::alloc::AllocError;
    use std::test::Fail;

    fn with_script(alloc: Global, script: &str) -> Result<Vec<u8>, AllocError> {
        let mut text = Vec::from_slice(alloc, HEAD)?;
        text.extend_from_slice(script.as_bytes())?;
        Ok(text)
    }

    #[test]
    fn reads_calls(rt: HostRuntime) -> Result<(), Fail> {
        let script = "client 1 call Put 1 10\nclient 1 call Get 1\n";
        let text = with_script(rt.alloc(), script)?;
        let calls = read_form(rt.alloc(), &text).ok().ok_or("refused")?;
        let wanted = [
            ScriptCall::Put { id: 1, balance: 10 },
            ScriptCall::Get { id: 1 },
        ];
        assert_eq!(rt; calls.as_slice(), wanted.as_slice());
        let none = read_form(rt.alloc(), HEAD).ok().ok_or("refused")?;
        assert_eq!(rt; none.len(), 0);
        Ok(())
    }

    #[test]
    fn reads_numbers(rt: HostRuntime) -> Result<(), Fail> {
        let numbers = [
            ("0", 0),
            ("-0", 0),
            ("007", 7),
            ("-0000000000000000000000000012", -12),
            ("9223372036854775807", 9_223_372_036_854_775_807),
            ("-9223372036854775807", -9_223_372_036_854_775_807),
        ];
        for (word, id) in numbers {
            let script = format!(in rt.alloc(); "client 1 call Get {word}\n")?;
            let text = with_script(rt.alloc(), &script)?;
            let calls = read_form(rt.alloc(), &text).ok().ok_or("refused")?;
            assert_eq!(rt;
                calls.as_slice(),
                [ScriptCall::Get { id }].as_slice(),
                "at {word}"
            );
        }
        Ok(())
    }

    #[test]
    fn refuses_scripts(rt: HostRuntime) -> Result<(), Fail> {
        let scripts = [
            ("client 1 call Get 1", 29),
            ("client 1 call Get 1\nclient 1 call Get 1", 30),
            ("client 1 call Get 1\n\n", 30),
            ("client 1 call Get 1\r\n", 29),
            ("client 1 call Get 1 2\n", 29),
            ("client 1 call Put 1\n", 29),
            ("client 1 call Put 1 2 3\n", 29),
            ("client 1 call Put 1  2\n", 29),
            ("client 1 call Get 1 \n", 29),
            (" client 1 call Get 1\n", 29),
            ("client 2 call Get 1\n", 29),
            ("client 1 call get 1\n", 29),
            ("client 1 call Total\n", 29),
            ("client 1 call Get \n", 29),
            ("client 1 call Get -\n", 29),
            ("client 1 call Get --1\n", 29),
            ("client 1 call Get +1\n", 29),
            ("client 1 call Get 0x1\n", 29),
            ("client 1 call Get 9223372036854775808\n", 29),
            ("client 1 call Get -9223372036854775808\n", 29),
            ("client 1 call Get 18446744073709551617\n", 29),
            ("client 1 call Get 184467440737095516170\n", 29),
        ];
        for (script, line) in scripts {
            let text = with_script(rt.alloc(), script)?;
            let fault = read_form(rt.alloc(), &text).err();
            assert_eq!(rt; fault, Some(FormFault::NotOfForm { line }), "at {script}");
        }
        Ok(())
    }

    #[test]
    fn refuses_heads(rt: HostRuntime) {
        let heads = [
            ("", 1),
            ("%deployment", 1),
            ("%deployment\n", 2),
            ("%ddl\n", 1),
            ("%deployment\nhosts = 2\nsites = 1\n", 2),
            ("%deployment\nhosts = 1\nsites = 1\nk = 1\n", 4),
        ];
        for (head, line) in heads {
            let fault = read_form(rt.alloc(), head.as_bytes()).err();
            assert_eq!(rt; fault, Some(FormFault::NotOfForm { line }), "at {head}");
        }
        let (unended, _) = HEAD.split_at(HEAD.len() - 1);
        let fault = read_form(rt.alloc(), unended).err();
        assert_eq!(rt; fault, Some(FormFault::NotOfForm { line: 28 }));
        let (without_script, _) = HEAD.split_at(HEAD.len() - 8);
        let fault = read_form(rt.alloc(), without_script).err();
        assert_eq!(rt; fault, Some(FormFault::NotOfForm { line: 28 }));
    }
}
