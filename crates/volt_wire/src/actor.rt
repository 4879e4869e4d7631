use volt_base::{ClientNo, HostNo, SlotNo};

/// An actor of the world. Their order is the one in which events are listed: the director, the
/// clients, the agents of the hosts, the sites, the scanners.
#[derive(Clone, Copy, Debug, PartialEq, Eq, PartialOrd, Ord)]
pub enum Actor {
    /// Does the items of the script.
    Director,
    /// Submits the calls of one client, one after another.
    Client(ClientNo),
    /// Speaks for a host to its clients and to the other hosts.
    Agent(HostNo),
    /// Keeps the copy of a partition that belongs to a slot.
    Site(SlotNo),
    /// Reads the tables of the site of its slot out, block by block.
    Scanner(SlotNo),
}
