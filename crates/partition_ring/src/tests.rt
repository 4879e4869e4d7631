use super::*;
use crate::buckets::bucket;
use std::test::*;

/// The spelling of an integer: its kind, and eight bytes.
fn spelled(id: u8) -> [u8; 9] {
    [1, 0, 0, 0, 0, 0, 0, 0, id]
}

#[test]
fn ids_fall_into_their_buckets(rt: HostRuntime) -> Result<(), Fail> {
    let expected = [351, 786, 197, 224, 659, 70, 505, 324, 759, 170];
    for i in 0..10 {
        assert_eq!(rt; bucket(&spelled(i as u8 + 1)), expected[i]);
    }
    assert_eq!(rt; bucket(&[]), 805);
    assert_eq!(rt; bucket(b"a"), 140);
    Ok(())
}

#[test]
fn ids_lie_in_their_partitions(rt: HostRuntime) -> Result<(), Fail> {
    let of_two = [0, 1, 0, 0, 1, 0, 0, 0, 1, 0];
    let of_three = [1, 2, 0, 0, 1, 0, 1, 0, 2, 0];
    for i in 0..10 {
        let id = spelled(i as u8 + 1);
        assert_eq!(rt; partition_of(&id, 1), 0);
        assert_eq!(rt; partition_of(&id, 2), of_two[i]);
        assert_eq!(rt; partition_of(&id, 3), of_three[i]);
    }
    assert_eq!(rt; partition_of(&[], 32), 25);
    Ok(())
}

#[test]
fn layouts_are_refused(rt: HostRuntime) -> Result<(), Fail> {
    assert_eq!(rt; Layout::new(3, 1, 1), Err(BadLayout));
    assert_eq!(rt; Layout::new(1, 2, 1), Err(BadLayout));
    let layout = Layout {
        hosts: 3,
        sites: 2,
        k: 1,
    };
    assert_eq!(rt; Layout::new(3, 2, 1), Ok(layout));
    Ok(())
}

#[test]
fn copies_have_places(rt: HostRuntime) -> Result<(), Fail> {
    copies_have_hosts_of_their_own();
    slots_have_copies();
    let layout = match Layout::new(3, 2, 1) {
        Ok(layout) => layout,
        Err(_) => return Err("three hosts of two sites hold two copies".into()),
    };
    assert_eq!(rt; (layout.slots(), layout.parts()), (6, 3));
    assert_eq!(rt; layout.place(0, 0), (0, 0, 0));
    assert_eq!(rt; layout.place(0, 1), (1, 1, 0));
    assert_eq!(rt; layout.place(1, 0), (2, 2, 0));
    assert_eq!(rt; layout.place(1, 1), (3, 0, 1));
    assert_eq!(rt; layout.place(2, 0), (4, 1, 1));
    assert_eq!(rt; layout.place(2, 1), (5, 2, 1));
    Ok(())
}

#[test]
fn the_leader_comes_first(rt: HostRuntime) -> Result<(), Fail> {
    copies_are_in_order();
    let alloc = rt.alloc();
    let layout = match Layout::new(3, 2, 1) {
        Ok(layout) => layout,
        Err(_) => return Err("three hosts of two sites hold two copies".into()),
    };
    let all = [(0, 1), (1, 2), (2, 3)];
    assert_eq!(rt;
        layout.copies(alloc, &all, 0)?.as_slice(),
        [0, 1].as_slice()
    );
    assert_eq!(rt;
        layout.copies(alloc, &all, 1)?.as_slice(),
        [3, 2].as_slice()
    );
    assert_eq!(rt;
        layout.copies(alloc, &all, 2)?.as_slice(),
        [4, 5].as_slice()
    );
    // Host 0 is lost, and comes back with start 4.
    let some = [(1, 2), (2, 3)];
    assert_eq!(rt; layout.copies(alloc, &some, 0)?.as_slice(), [1].as_slice());
    let again = [(1, 2), (0, 1), (2, 3), (0, 4)];
    assert_eq!(rt;
        layout.copies(alloc, &again, 0)?.as_slice(),
        [1, 0].as_slice()
    );
    // Of one start the lower slot comes first.
    let same = [(2, 7), (0, 7)];
    assert_eq!(rt;
        layout.copies(alloc, &same, 1)?.as_slice(),
        [2, 3].as_slice()
    );
    assert_eq!(rt; layout.copies(alloc, &[], 1)?.len(), 0);
    Ok(())
}
