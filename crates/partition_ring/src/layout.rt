//! The layout of a cluster.

ghost use Rattle.std.specs.Prelude.{◌≡◌, ◌+◌, ◌*◌, ◌<◌, ◌≤◌, if◌then◌else◌};
ghost use Rattle.partition_ring.specs.Placement.{IsWithinLimits, IsLayout, is_layout, slots_of, parts_of, part_of, place_of};

use volt_base::{HostNo, PartNo, SlotNo};

/// How many hosts a cluster has, from 1 to 8, how many sites each host, from 1 to 4, and how many
/// spare copies each partition, from 0 to 3. Slots are numbered from 0, one for each site, and dealt
/// out to the hosts in turn.
#[derive(Clone, Copy, Debug, PartialEq, Eq)]
pub struct Layout {
    pub hosts: u8,
    pub sites: u8,
    pub k: u8,
}

/// The slots don't make whole partitions, or there are fewer hosts than copies of a partition.
#[derive(Clone, Copy, Debug, PartialEq, Eq)]
pub struct BadLayout;

impl Layout {
    /// The layout of these numbers. It is refused exactly where `hosts * sites` isn't divisible by
    /// `k + 1`, or `k + 1` is above `hosts`.
    pub fn new(hosts: u8, sites: u8, k: u8) -> Result<Layout, BadLayout>
        requires { IsWithinLimits hosts sites k }
        ensures { result ≡ (if is_layout hosts sites k
            then Ok (record { hosts = hosts; sites = sites; k = k }) else Err (record {})) }
    {
        if hosts * sites % (k + 1) != 0 || k + 1 > hosts {
            return Err(BadLayout);
        }
        Ok(Layout { hosts, sites, k })
    }

    /// How many slots there are, from 1 to 32: one for each site of each host.
    pub fn slots(&self) -> u8
        requires { IsLayout self.now.hosts self.now.sites self.now.k }
        ensures exact { result ≡ slots_of self.now.hosts self.now.sites }
    {
        self.hosts * self.sites
    }

    /// How many partitions there are, from 1 to 32. Each has `k + 1` copies, with a slot each.
    pub fn parts(&self) -> u8
        requires { IsLayout self.now.hosts self.now.sites self.now.k }
        ensures exact { result ≡ parts_of self.now.hosts self.now.sites self.now.k }
        ensures whole { result * (self.now.k + 1) ≡ slots_of self.now.hosts self.now.sites }
    {
        self.slots() / (self.k + 1)
    }

    /// The place of copy `copy` of a partition, both counted from 0: its slot, its host, and which
    /// of its host's sites it is. The slot is `part * (k + 1) + copy`, the host is the slot modulo
    /// the number of hosts, and the site is the slot divided by it, rounded down.
    pub fn place(&self, part: PartNo, copy: u8) -> (SlotNo, HostNo, u8)
        requires layout { IsLayout self.now.hosts self.now.sites self.now.k }
        requires part { part < parts_of self.now.hosts self.now.sites self.now.k }
        requires copy { copy ≤ self.now.k }
        ensures exact { result ≡ place_of self.now.hosts self.now.k part copy }
        ensures slot { result.0 < slots_of self.now.hosts self.now.sites }
        ensures host { result.1 < self.now.hosts }
        ensures site { result.2 < self.now.sites }
        ensures part { part_of self.now.k result.0 ≡ part }
    {
        let slot = part * (self.k + 1) + copy;
        (slot, slot % self.hosts, slot / self.hosts)
    }
}
