//! The spelling of a key.

ghost use Rattle.std.specs.Prelude.{◌≡◌, [], ◌∷◌, ◌++◌, nat_eq, IfOk, OnOk, OnErr};
ghost use Rattle.std.specs.Cmp.{partial_equiv_from_equiv};
ghost use Rattle.std.specs.Cmp.Lexicographic.{pointwise, nat_list_eq_equiv};
ghost use Rattle.volt_value.specs.declared.value.Value.TheVariants.{Null, Int, Text};
ghost use Rattle.volt_index.specs.Keys.{raised, value_key, key_bytes, end_byte, end_bytes, IsHeld, AreHeld};

use crate::entry::Entry;
use std::alloc::{AllocError, Global};
use std::marker::Model;
use volt_value::Value;

/// A byte above the first one of each value.
const END: u8 = 3;

/// Bytes by which an index orders its entries, a prefix first, and seen as these. Those of the
/// values of a list, one value after another, go as the list does among lists of values; each value
/// adds its bytes at the end, so that the spelling of a prefix is a prefix.
///
/// A key can be filled anew, and then keeps its memory.
#[derive(Debug, Drop)]
pub struct Key {
    pub(crate) entry: Entry,
}

impl Model for Key {
    ghost use Rattle.std.specs.Prelude.{◌≡◌, List, ℕ};

    ghost Value = { List ℕ };

    ghost view = { λ k. k.entry.0 };

    ghost invariant = { λ k. k.entry.1 ≡ 0 };
}

/// Puts an integer's spelling behind bytes.
fn put_integer(into: &mut Vec<u8>, n: i64) -> Result<(), AllocError>
    ensures spelled { OnOk result (into.new.items ≡ into.old.items ++ value_key (Int n)) }
    ensures kept { OnErr result (into.new.items ≡ into.old.items) }
{
    let [a, b, c, d, e, f, g, h] = raised(n).to_be_bytes();
    into.extend_from_slice(&[1, a, b, c, d, e, f, g, h])
}

/// A number that rises with the integer.
fn raised(n: i64) -> u64
    ensures { result ≡ raised n }
{
    if n < 0 {
        (n - i64::MIN) as u64
    } else {
        n as u64 + (1 << 63)
    }
}

/// Puts a text's spelling behind bytes.
#[tactic(auto, using(crate::proofs::Utf8Bytes::byte_below))]
fn put_text(into: &mut Vec<u8>, text: &str) -> Result<(), AllocError>
    ensures spelled { OnOk result (into.new.items ≡ into.old.items ++ value_key (Text text.now)) }
    ensures kept { OnErr result (into.new.items ≡ into.old.items) }
{
    let bytes = text.as_bytes();
    into.reserve(bytes.len() + 2)?;
    into.push_reserved(2);
    for byte in bytes {
        into.push_reserved(*byte + 1);
    }
    into.push_reserved(0);
    Ok(())
}

impl Key {
    /// A key without bytes.
    pub fn new(alloc: Global) -> Key
        ensures { result ≡ [] }
    {
        Key {
            entry: Entry::new(alloc),
        }
    }

    /// The bytes.
    pub fn as_slice(&self) -> &[u8]
        ensures { result.now ≡ self.now }
    {
        self.entry.bytes.as_slice()
    }

    /// Takes all bytes out.
    pub fn clear(&mut self)
        ensures { self.new ≡ [] }
    {
        let entry = &mut self.entry;
        entry.bytes.clear();
    }

    /// Adds NULL. Without memory the key stays as it was.
    pub fn push_null(&mut self) -> Result<(), AllocError>
        ensures spelled { OnOk result (self.new ≡ self.old ++ value_key Null) }
        ensures kept { OnErr result (self.new ≡ self.old) }
    {
        let entry = &mut self.entry;
        entry.bytes.push(0)?;
        Ok(())
    }

    /// Adds an integer. Without memory the key stays as it was.
    pub fn push_integer(&mut self, n: i64) -> Result<(), AllocError>
        ensures spelled { OnOk result (self.new ≡ self.old ++ value_key (Int n)) }
        ensures kept { OnErr result (self.new ≡ self.old) }
    {
        let entry = &mut self.entry;
        put_integer(&mut entry.bytes, n)
    }

    /// Adds a text. Without memory the key stays as it was.
    pub fn push_text(&mut self, text: &str) -> Result<(), AllocError>
        ensures spelled { OnOk result (self.new ≡ self.old ++ value_key (Text text.now)) }
        ensures kept { OnErr result (self.new ≡ self.old) }
    {
        let entry = &mut self.entry;
        put_text(&mut entry.bytes, text)
    }

    /// Adds a value. Without memory the key stays as it was.
    pub fn push(&mut self, value: &Value) -> Result<(), AllocError>
        ensures spelled { OnOk result (self.new ≡ self.old ++ value_key value.now) }
        ensures held { OnOk result (IsHeld value.now) }
        ensures kept { OnErr result (self.new ≡ self.old) }
    {
        match value {
            Value::Null => self.push_null(),
            Value::Int(n) => self.push_integer(*n),
            Value::Text(text) => self.push_text(text.as_str()),
        }
    }

    /// Makes it the end of the lists that begin with its values: behind each of them, and before
    /// every greater list.
    pub fn push_end(&mut self) -> Result<(), AllocError>
        ensures ended { OnOk result (self.new ≡ self.old ++ end_byte ∷ []) }
        ensures kept { OnErr result (self.new ≡ self.old) }
    {
        let entry = &mut self.entry;
        entry.bytes.push(END)?;
        Ok(())
    }
}

impl PartialEq for Key {
    ghost eq = { pointwise nat_eq };

    ghost laws = { partial_equiv_from_equiv nat_list_eq_equiv };

    fn eq(&self, other: &Key) -> bool {
        self.as_slice() == other.as_slice()
    }
}

/// The spelling of a list of values.
#[tactic(auto, using(crate::proofs::KeyLemmas::AreHeld_push, std::proofs::lemmas::Grind::common_steps))]
pub fn key_of(alloc: Global, values: &[Value]) -> Result<Key, AllocError>
    ensures spelled { IfOk result (λ key. key ≡ key_bytes values.now) }
    ensures held { OnOk result (AreHeld values.now) }
{
    let mut key = Key::new(alloc);
    for value in values {
        key.push(value)?;
    }
    Ok(key)
}

/// The end of the lists that begin with these values: behind each of them, and before every greater
/// list.
pub fn end_of(alloc: Global, values: &[Value]) -> Result<Key, AllocError>
    ensures ended { IfOk result (λ key. key ≡ end_bytes values.now) }
    ensures held { OnOk result (AreHeld values.now) }
{
    let mut key = key_of(alloc, values)?;
    key.push_end()?;
    Ok(key)
}
