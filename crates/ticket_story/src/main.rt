// Tickets held through a takeover: one is kept, one is gone, one is written off.
#![tactic(auto)]

mod held;

use buffered_store::BufferedStore;
use cluster::{Cluster, Outcome};
use held::{Closing, close, write_off};
use machine::UndoMachine;
use session::open;
use sheet::{Edit, Kind};
use std::io;
use store::RecordStore;

type Servers = Cluster<BufferedStore<RecordStore>, UndoMachine>;

// An edit of row 1 and size 5: it sets the cell to `a`, or grades the row by a/q a size.
fn edit(kind: Kind, a: i32, q: i32) -> Edit {
    Edit {
        kind: kind.into(),
        row: 1,
        size: 5,
        a,
        q,
    }
}

// A server gets its second vote from another, whose request has the given position; the other request is lost.
fn elect(cluster: &mut Servers, server: u32, position: u32) {
    let _ = cluster.campaign(server);
    let _ = cluster.deliver(position, false);
    let _ = cluster.deliver(2, false);
    let _ = cluster.lose(1);
}

// A leader makes its log durable, sends the next entry to another server, and hears the reply.
fn replicate(cluster: &mut Servers, leader: u32, other: u32) {
    let _ = cluster.firm(leader);
    let _ = cluster.send(leader, other);
    let _ = cluster.deliver(1, false);
    let _ = cluster.deliver(1, false);
}

// Server 1 leads, and commits the first of three edits; server 2 takes over, and commits another in place of the second.
fn story(cluster: &mut Servers) -> [Closing; 7] {
    elect(cluster, 1, 1);
    let base = cluster.propose_ticket(1, edit(Kind::Set, 7200, 0)).ok();
    replicate(cluster, 1, 2);
    let waistband = cluster.propose_ticket(1, edit(Kind::Grade, 415, 2)).ok();
    let seam = cluster.propose_ticket(1, edit(Kind::Set, 7240, 0)).ok();
    let (base, first) = close(base, cluster, 1);
    let (waistband, second) = close(waistband, cluster, 1);
    elect(cluster, 2, 2);
    let other = cluster.propose_ticket(2, edit(Kind::Grade, 425, 2)).ok();
    for _ in 0..3 {
        replicate(cluster, 2, 3);
    }
    let (waistband, third) = close(waistband, cluster, 2);
    let (seam, fourth) = close(seam, cluster, 2);
    let (seam, fifth) = close(seam, cluster, 4);
    let _ = cluster.outage(3, 0);
    let (seam, sixth) = close(seam, cluster, 3);
    let (other, seventh) = close(other, cluster, 2);
    write_off(base);
    write_off(waistband);
    write_off(seam);
    write_off(other);
    [first, second, third, fourth, fifth, sixth, seventh]
}

fn main(rt: HostRuntime) -> io::Result<()> {
    let heap = rt.alloc();
    let mut cluster: Servers = open(heap)?;
    for closing in story(&mut cluster) {
        let number = closing.number;
        let term = closing.term;
        let server = closing.server;
        match closing.answer {
            Ok(Outcome::Kept) => println!(rt; "close {server} {number} {term}: kept")?,
            Ok(Outcome::Gone) => println!(rt; "close {server} {number} {term}: gone")?,
            Err(refusal) => {
                let why = refusal.number();
                println!(rt; "close {server} {number} {term}: refused {why}")?;
            }
        }
    }
    Ok(())
}
