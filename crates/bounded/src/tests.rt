// A list of three at most, opened, filled and emptied.
use crate::Bounded;
use std::test::Fail;

#[test]
fn holds_three_and_no_more(rt: HostRuntime) -> Result<(), Fail> {
    let mut list = Bounded::<u32, 3>::open(rt.alloc())?;
    for item in 1..=4 {
        let _ = list.push(item);
    }
    assert_eq!(rt; list.len(), 3);
    assert_eq!(rt; list.remove(1), Some(2));
    assert_eq!(rt; list.pop().ok(), Some(3));
    assert_eq!(rt; list.pop_first().ok(), Some(1));
    assert_eq!(rt; list.len(), 0);
    Ok(())
}
