// Both machines are opened, and read the same.
use crate::{replay_rounds, rounds, undo_rounds};
use machine::{ReplayMachine, UndoMachine};
use std::test::Fail;

#[test]
fn both_machines_read_the_same(rt: HostRuntime) -> Result<(), Fail> {
    let sum = rounds::<UndoMachine>(rt.alloc(), 3)?;
    assert_eq!(rt; rounds::<ReplayMachine>(rt.alloc(), 3)?, sum);
    assert_eq!(rt; undo_rounds(rt.alloc(), 3), sum);
    assert_eq!(rt; replay_rounds(rt.alloc(), 3), sum);
    Ok(())
}
