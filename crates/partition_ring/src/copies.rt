//! The copies of a partition that stand, in order.

ghost use Rattle.std.specs.Prelude.{◌≡◌, ◌+◌, ◌*◌, ◌<◌, ◌≤◌, [], ◌∷◌, OnOk, IfOk};
ghost use Rattle.partition_ring.specs.Placement as ring;
ghost use Rattle.partition_ring.specs.Placement.{IsLayout, parts_of, copies_of, start_in, standing, with_copies};

use crate::layout::Layout;
use std::alloc::{AllocError, Global};
use std::collections::BTreeSet;
use volt_base::{HostNo, PartNo, SlotNo, Start};

/// The start by which a host is a member, of the greatest one so far and one more member.
fn greater_start(host: HostNo, start: Option<Start>, member: &(HostNo, Start)) -> Option<Start>
    ensures { result ≡ ring.greater_start host start member.now }
{
    if member.0 != host {
        return start;
    }
    match start {
        None => Some(member.1),
        Some(start) => Some(start.max(member.1)),
    }
}

/// The start by which a host is a member: the greatest that stands with it.
fn start_of(members: &[(HostNo, Start)], host: HostNo) -> Option<Start>
    ensures { result ≡ start_in members.now host }
{
    let mut start = None;
    for member in members {
        start = greater_start(host, start, member);
    }
    start
}

impl Layout {
    /// Puts a slot's copy among others at its place, where the slot's host is a member.
    fn put_copy(
        &self,
        members: &[(HostNo, Start)],
        slot: SlotNo,
        ordered: &mut BTreeSet<(Start, SlotNo)>,
    ) -> Result<(), AllocError>
        requires { 1 ≤ self.now.hosts }
        ensures { OnOk result (ordered.new.keys
            ≡ with_copies ordered.old.keys (standing self.now.hosts members.now (slot ∷ []))) }
    {
        if let Some(start) = start_of(members, slot % self.hosts) {
            ordered.insert((start, slot))?;
        }
        Ok(())
    }

    /// The slots of a partition's copies whose host is among the members, each a host with its start.
    /// They are in the order of their hosts' starts, and of one start in that of the slots; the
    /// first is the leader. Where a host is a member twice, its greatest start counts.
    pub fn copies(
        &self,
        alloc: Global,
        members: &[(HostNo, Start)],
        part: PartNo,
    ) -> Result<Vec<SlotNo>, AllocError>
        requires layout { IsLayout self.now.hosts self.now.sites self.now.k }
        requires part { part < parts_of self.now.hosts self.now.sites self.now.k }
        ensures { IfOk result (λ slots.
            slots.items ≡ copies_of self.now.hosts self.now.k members.now part) }
    {
        let first = part * (self.k + 1);
        let mut ordered = BTreeSet::new(alloc);
        for copy in 0..self.k + 1 {
            self.put_copy(members, first + copy, &mut ordered)?;
        }
        let mut slots = Vec::new(alloc);
        for copy in ordered.iter() {
            slots.push(copy.1)?;
        }
        Ok(slots)
    }
}
