// Clusters as they open, over both machines.
use crate::{open, parts};
use cluster::Cluster;
use machine::{Opens, ReplayMachine, StateMachine, UndoMachine};
use std::test::Fail;
use store::{OpensEmpty, RecordStore, Store};

#[test]
fn opens_an_empty_store_and_a_machine(rt: HostRuntime) -> Result<(), Fail> {
    let (store, machine) = parts::<RecordStore, ReplayMachine>(rt.alloc())?;
    assert_eq!(rt; store.len(), 0);
    assert_eq!(rt; machine.read(1, 1).ok(), Some(0));
    Ok(())
}

#[test]
fn opens_three_servers(rt: HostRuntime) -> Result<(), Fail> {
    let mut cluster: Cluster<RecordStore, UndoMachine> = open(rt.alloc())?;
    assert_eq!(rt; cluster.campaign(1).ok(), Some(0));
    assert_eq!(rt; cluster.campaign(4).ok(), None);
    Ok(())
}
