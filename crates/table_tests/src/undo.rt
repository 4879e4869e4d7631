use std::test::*;
use undo_log::*;

/// Steps come back newest first, down to a mark.
#[test]
fn steps_come_back(rt: HostRuntime) -> Result<(), Fail> {
    let mut undo = Undo::new(rt.alloc());
    undo.reserve(4)?;
    undo.note(1u8);
    let mark = undo.mark();
    undo.note(2);
    undo.note(3);
    assert_eq!(rt; mark.below(), 1);
    assert_eq!(rt; undo.roll_back(mark), Some(3));
    assert_eq!(rt; undo.roll_back(mark), Some(2));
    assert_eq!(rt; undo.roll_back(mark), None);
    undo.note(4);
    undo.note(5);
    assert_eq!(rt; undo.steps(), [1, 4, 5].as_slice());
    undo.release(mark);
    assert_eq!(rt; undo.steps(), [1].as_slice());
    undo.release(Mark::above(9));
    assert_eq!(rt; undo.mark(), mark);
    undo.release(Mark::above(0));
    assert_eq!(rt; undo.roll_back(Mark::above(0)), None);
    Ok(())
}
