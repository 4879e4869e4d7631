//! Calls of the two procedures, and how they are spelled.

ghost use Rattle.std.specs.Prelude.{◌≡◌, ◌≢◌, ◌++◌, true, IfOk, IfSome, IfNone, OnOk};
ghost use Rattle.std.specs.Option.{option_map};
ghost use Rattle.volt_value.specs.declared.value.Value.{Value};
ghost use Rattle.volt_value.specs.declared.value.Value.TheVariants.{Int};
ghost use Rattle.account_engine.specs.declared.call.AccountCall.{AccountCall};
ghost use Rattle.account_engine.specs.Calls as calls;
ghost use Rattle.volt_value.specs.Spelling.{value_bytes};
ghost use Rattle.volt_value.specs.Values.{is_bigint};
ghost use Rattle.account_engine.specs.Spelling.{body_of};
ghost use Rattle.account_engine.specs.Reading as reading;

use std::alloc::{AllocError, Global};
use volt_base::Bytes;

/// A call. Ids and balances are from -9223372036854775807 to 9223372036854775807; the least i64 is
/// no value.
#[derive(Clone, Copy, Debug, PartialEq, Eq)]
pub enum AccountCall {
    /// Adds the row (id, balance) where the id isn't there, and answers the number of rows that it
    /// added, 1. Where the id is there it changes nothing, and aborts with the fault Duplicate.
    Put { id: i64, balance: i64 },
    /// Answers the balance of an id, in one row, or no row where the id isn't there.
    Get { id: i64 },
}

/// The numbers of the procedures: their places in the catalog.
const PUT: u16 = 0;

const GET: u16 = 1;

/// What an integer begins with.
const INTEGER: u8 = 1;

impl AccountCall {
    /// Whether the call's integers are values.
    pub fn is_valid(&self) -> bool
        ensures { result ≡ calls.is_valid self.now }
    {
        match self {
            AccountCall::Put { id, balance } => is_value(*id) && is_value(*balance),
            AccountCall::Get { id } => is_value(*id),
        }
    }

    /// The call's body: the number of its procedure in two bytes, how many values it has in one, and
    /// each value as a byte 1 and 8 bytes of two's complement. All numbers have their highest byte
    /// first.
    pub fn encode(&self, alloc: Global) -> Result<Bytes, AllocError>
        requires { calls.is_valid self.now ≡ true }
        ensures { IfOk result (λ body. body ≡ body_of self.now) }
    {
        let mut body = Vec::new(alloc);
        match self {
            AccountCall::Put { id, balance } => {
                body.extend_from_slice(&PUT.to_be_bytes())?;
                body.push(2)?;
                push_integer(&mut body, *id)?;
                push_integer(&mut body, *balance)?;
            }
            AccountCall::Get { id } => {
                body.extend_from_slice(&GET.to_be_bytes())?;
                body.push(1)?;
                push_integer(&mut body, *id)?;
            }
        }
        Ok(Bytes::from_vec(body))
    }

    /// The call that a body spells, all of it; None exactly where it spells none.
    pub fn decode(body: &[u8]) -> Option<AccountCall>
        ensures exact { result ≡ reading.call_of_body body.now }
        ensures read { IfSome result (λ c. (calls.is_valid c ≡ true) × (body.now ≡ body_of c)) }
        ensures refused { IfNone result
            ((c : AccountCall) → calls.is_valid c ≡ true → body.now ≢ body_of c) }
    {
        call_of(body)
    }
}

/// Whether an integer is a value.
pub fn is_value(integer: i64) -> bool
    ensures { result ≡ is_bigint integer }
{
    integer != i64::MIN
}

/// Appends an integer, as a value is spelled.
pub fn push_integer(into: &mut Vec<u8>, integer: i64) -> Result<(), AllocError>
    ensures { OnOk result (into.new.items ≡ into.old.items ++ value_bytes (Int integer)) }
{
    into.push(INTEGER)?;
    into.extend_from_slice(&integer.to_be_bytes())?;
    Ok(())
}

fn integer_at(bytes: &[u8]) -> Option<(i64, &[u8])>
    ensures { option_map (λ x. (x.0, x.1.now)) result ≡ reading.integer_then_rest bytes.now }
{
    if bytes.len() < 8 {
        return None;
    }
    let (prefix, rest) = bytes.split_at(8);
    let integer = i64::from_be_bytes([
        prefix[0], prefix[1], prefix[2], prefix[3], prefix[4], prefix[5], prefix[6], prefix[7],
    ]);
    if is_value(integer) {
        Some((integer, rest))
    } else {
        None
    }
}

/// The value at the beginning, an integer, and the bytes behind it.
pub fn value_at(bytes: &[u8]) -> Option<(i64, &[u8])>
    ensures { option_map (λ x. (x.0, x.1.now)) result ≡ reading.value_then_rest bytes.now }
{
    match bytes {
        [INTEGER, rest @ ..] => integer_at(rest),
        _ => None,
    }
}

fn put_of(values: &[u8]) -> Option<AccountCall>
    ensures { result ≡ reading.put_of_values values.now }
{
    let (id, rest) = value_at(values)?;
    let (balance, rest) = value_at(rest)?;
    if rest.is_empty() {
        Some(AccountCall::Put { id, balance })
    } else {
        None
    }
}

fn get_of(values: &[u8]) -> Option<AccountCall>
    ensures { result ≡ reading.get_of_values values.now }
{
    let (id, rest) = value_at(values)?;
    if rest.is_empty() {
        Some(AccountCall::Get { id })
    } else {
        None
    }
}

fn call_with(procedure: u16, count: u8, values: &[u8]) -> Option<AccountCall>
    ensures { result ≡ reading.call_with procedure count values.now }
{
    if procedure == PUT && count == 2 {
        return put_of(values);
    }
    if procedure == GET && count == 1 {
        return get_of(values);
    }
    None
}

fn call_of(body: &[u8]) -> Option<AccountCall>
    ensures { result ≡ reading.call_of_body body.now }
{
    match body {
        [high, low, count, values @ ..] => {
            call_with(u16::from_be_bytes([*high, *low]), *count, values)
        }
        _ => None,
    }
}
