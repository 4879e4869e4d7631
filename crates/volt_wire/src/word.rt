//! What the hosts of a cluster agree on: who is a member.

use std::alloc::Global;
use std::boxed::Box;
use std::collections::{BTreeMap, BTreeSet};
use std::marker::Model;
use volt_base::{HostNo, Start, Term};

/// Starts of hosts, seen as the list of their numbers, rising.
#[derive(Debug, Drop)]
pub struct Starts {
    held: BTreeSet<Start>,
}

impl Model for Starts {
    ghost use Rattle.std.specs.Prelude.{List, ℕ};

    ghost Value = { List ℕ };

    ghost view = { λ s. s.held.keys };
}

/// Starts that were admitted, each with its host, seen as the list of these pairs by rising start.
#[derive(Debug, Drop)]
pub struct Admissions {
    held: BTreeMap<Start, HostNo>,
}

impl Model for Admissions {
    ghost use Rattle.std.specs.Prelude.{List, ℕ};

    ghost Value = { List (ℕ × ℕ) };

    ghost view = { λ a. a.held.entries };
}

/// Who is a member: the first hosts, and those that were admitted since, without those that are lost.
#[derive(Debug, Drop)]
pub struct Word {
    held: Box<HeldWord>,
}

#[derive(Debug, Drop)]
struct HeldWord {
    base: Term,
    first: Vec<(HostNo, Start)>,
    lost: Starts,
    admitted: Admissions,
}

impl Model for Word {
    ghost use Rattle.volt_wire.specs.Word.{Membership};

    ghost Value = { Membership };

    ghost view = { λ w. record {
      base = w.held.value.base;
      first = w.held.value.first.items;
      lost = w.held.value.lost;
      admitted = w.held.value.admitted;
    } };
}
