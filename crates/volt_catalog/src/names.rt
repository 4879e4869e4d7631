//! Names in order of definition.

ghost use Rattle.std.specs.Prelude.{◌≡◌, ◌≤◌, ◌++◌, [], ◌∷◌, true, false, not, length, position, OnErr, IfOk};
ghost use Rattle.std.specs.List.{list_any};
ghost use Rattle.std.specs.Str.{bytes_eq};
ghost use Rattle.volt_catalog.specs.Names.{lower};

use indexmap::IndexSet;
use std::alloc::{AllocError, Global};
use std::marker::Model;

/// A name of at most so many bytes is looked up by its hash, in lower case on the stack, so that a
/// look-up takes no memory. A longer one is compared with each name.
const SHORT: usize = 64;

/// Names without ASCII case, each with the number that it has in order of definition. They are seen
/// as the list of the names in lower case.
#[derive(Drop)]
pub(crate) struct Names {
    lowered: IndexSet<Vec<u8>>,
}

impl Model for Names {
    ghost use Rattle.std.specs.Prelude.{List, ℕ, map};

    ghost Value = { List (List ℕ) };

    ghost view = { λ n. map (λ name. name.items) n.lowered.keys };
}

/// Whether these bytes are the name in lower case.
fn is_lowered(kept: &[u8], name: &[u8]) -> bool
    ensures { result ≡ bytes_eq (lower name.now) kept.now }
{
    if kept.len() != name.len() {
        return false;
    }
    for place in 0..name.len() {
        if name[place].to_ascii_lowercase() != kept[place] {
            return false;
        }
    }
    true
}

/// The number of a name among names in lower case.
fn number_among(names: &[Vec<u8>], name: &[u8]) -> Option<usize>
    ensures { result ≡ position (λ kept. bytes_eq (lower name.now) kept.items) names.now }
{
    names
        .iter()
        .position(|kept| is_lowered(kept.as_slice(), name))
}

/// A copy of a name in lower case.
fn lowered(alloc: Global, name: &[u8]) -> Result<Vec<u8>, AllocError>
    ensures { IfOk result (λ lowered. lowered.items ≡ lower name.now) }
{
    let mut lowered = Vec::from_slice(alloc, name)?;
    lowered.as_mut_slice().make_ascii_lowercase();
    Ok(lowered)
}

impl Names {
    /// No names.
    pub(crate) fn new(alloc: Global) -> Names
        ensures { result ≡ [] }
    {
        Names {
            lowered: IndexSet::new(alloc),
        }
    }

    /// Puts a name behind the others, where none of them is the same, and answers whether it did.
    pub(crate) fn add(&mut self, alloc: Global, name: &str) -> Result<bool, AllocError>
        ensures fresh { IfOk result (λ fresh. fresh ≡ not (list_any (bytes_eq (lower name.now)) self.old)) }
        ensures added { IfOk result (λ fresh. fresh ≡ true → self.new ≡ self.old ++ lower name.now ∷ []) }
        ensures same { IfOk result (λ fresh. fresh ≡ false → self.new ≡ self.old) }
        ensures kept { OnErr result (self.new ≡ self.old) }
    {
        let lowered = lowered(alloc, name.as_bytes())?;
        Ok(self.lowered.insert(lowered)?)
    }

    /// The number of a name that is short.
    fn number_of_short(&self, name: &[u8]) -> Option<usize>
        requires { length name.now ≤ SHORT }
        ensures { result ≡ position (bytes_eq (lower name.now)) self.now }
    {
        let mut room = [0; SHORT];
        let lowered = &mut room[..name.len()];
        lowered.copy_from_slice(name);
        lowered.make_ascii_lowercase();
        self.lowered.get_index_of(&*lowered)
    }

    /// The number of a name.
    pub(crate) fn number(&self, name: &str) -> Option<usize>
        ensures { result ≡ position (bytes_eq (lower name.now)) self.now }
    {
        let name = name.as_bytes();
        if name.len() <= SHORT {
            self.number_of_short(name)
        } else {
            number_among(self.lowered.as_slice(), name)
        }
    }
}
