//! Laws of the ring.

ghost use Rattle.std.specs.Prelude.{◌≡◌, ℕ, ◌+◌, ◌%◌, ◌<◌, ◌≤◌, Bool, List};
ghost use Rattle.std.specs.List.{list_any};
ghost use Rattle.partition_ring.specs.Placement.{IsLayout, slots_of, parts_of, slot_of, part_of, host_of, standing, slots_of_part, ordered_copies, Rises};

/// No host has two copies of a partition.
pub fn copies_have_hosts_of_their_own()
    ensures { (hosts sites k part i j : ℕ) → IsLayout hosts sites k → i ≤ k → j ≤ k
        → host_of hosts (slot_of k part i) ≡ host_of hosts (slot_of k part j) → i ≡ j }
{}

/// Each slot is that of one copy of one partition.
pub fn slots_have_copies()
    ensures part { (hosts sites k slot : ℕ) → IsLayout hosts sites k → slot < slots_of hosts sites
        → part_of k slot < parts_of hosts sites k }
    ensures copy { (k slot : ℕ) → slot_of k (part_of k slot) (slot % (k + 1)) ≡ slot }
    ensures one { (k part copy : ℕ) → copy ≤ k → part_of k (slot_of k part copy) ≡ part }
{}

/// The copies that stand are in their order: each comes before those behind it. And none is lost, and
/// none is added.
pub fn copies_are_in_order()
    ensures rising { (hosts k part : ℕ) (members : List (ℕ × ℕ))
        → Rises (ordered_copies hosts k members part) }
    ensures same { (hosts k part : ℕ) (members : List (ℕ × ℕ)) (test : ℕ × ℕ → Bool)
        → list_any test (ordered_copies hosts k members part)
        ≡ list_any test (standing hosts members (slots_of_part k part)) }
{}
