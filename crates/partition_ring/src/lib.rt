//! The ring of partitions: which layouts a cluster may have, where each copy of a partition has its
//! place, and in which partition a value lies.
#![tactic(auto)]

mod buckets;
mod copies;
mod deployment;
mod laws;
mod layout;

pub use buckets::partition_of;
pub use deployment::Deployment;
pub use laws::{copies_are_in_order, copies_have_hosts_of_their_own, slots_have_copies};
pub use layout::{BadLayout, Layout};

#[cfg(test)]
mod tests;
