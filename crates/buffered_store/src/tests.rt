// A layer over a record store, seen from above and from below.
use crate::BufferedStore;
use record::Entry;
use sheet::Edit;
use std::alloc::{AllocError, Global};
use std::test::Fail;
use store::{OpensEmpty, RecordStore, Store};

// Appends this many entries.
fn fill<S: Store>(store: &mut S, count: u32) {
    for term in 0..count {
        let edit = Edit::default();
        let _ = store.append(Entry { term, edit });
    }
}

#[test]
fn hands_all_down_before_a_ninth(rt: HostRuntime) -> Result<(), Fail> {
    let mut store = BufferedStore::open(rt.alloc(), RecordStore::open(rt.alloc())?)?;
    fill(&mut store, 9);
    assert_eq!(rt; store.below().len(), 8);
    assert_eq!(rt; store.held_back().len(), 1);
    Ok(())
}

#[test]
fn a_crash_loses_its_own(rt: HostRuntime) -> Result<(), Fail> {
    let mut store = BufferedStore::open(rt.alloc(), RecordStore::open(rt.alloc())?)?;
    fill(&mut store, 10);
    assert_eq!(rt; store.crash(9), 8);
    Ok(())
}

// The length of a store as it opens.
fn length_at_opening<S: OpensEmpty + Drop>(heap: Global) -> Result<usize, AllocError> {
    Ok(S::open_empty(heap)?.len())
}

#[test]
fn opens_with_nothing(rt: HostRuntime) -> Result<(), Fail> {
    let length = length_at_opening::<BufferedStore<RecordStore>>(rt.alloc())?;
    assert_eq!(rt; length, 0);
    Ok(())
}
