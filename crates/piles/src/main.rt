// piles: runs one list of commands on every store with every machine, and prints what they answer.
#![tactic(auto)]

mod telling;

use buffered_store::BufferedStore;
use byte_store::ByteStore;
use command::{Command, command_in};
use machine::{Opens, ReplayMachine, UndoMachine};
use session::{parts, run_commands};
use std::alloc::{AllocError, Global};
use std::io;
use std::io::{BufRead, BufReader, BufWriter, Write};
use store::{OpensEmpty, RecordStore};
use telling::{InWords, servers_text};

type Buffered = BufferedStore<RecordStore>;

// Runs the commands from the opening: the text of each answer, and of the servers at the end.
fn run<S: OpensEmpty + Drop, M: Opens + Drop>(
    heap: Global,
    commands: &[Command],
) -> Result<Vec<String>, AllocError> {
    let first = parts::<S, M>(heap)?;
    let (cluster, answers) = run_commands(heap, first, parts(heap)?, parts(heap)?, commands)?;
    let mut lines = Vec::new(heap);
    for answer in answers.iter() {
        let answer = InWords(*answer);
        lines.push(format!(in heap; "{answer}")?)?;
    }
    lines.push(servers_text(heap, &cluster)?)?;
    Ok(lines)
}

fn run_all(heap: Global, commands: &[Command]) -> Result<[Vec<String>; 6], AllocError> {
    Ok([
        run::<RecordStore, UndoMachine>(heap, commands)?,
        run::<RecordStore, ReplayMachine>(heap, commands)?,
        run::<ByteStore, UndoMachine>(heap, commands)?,
        run::<ByteStore, ReplayMachine>(heap, commands)?,
        run::<Buffered, UndoMachine>(heap, commands)?,
        run::<Buffered, ReplayMachine>(heap, commands)?,
    ])
}

// What the piles say at a place: once where they agree, else one after the other.
fn joined(heap: Global, piles: &[Vec<String>], place: usize) -> Result<String, AllocError> {
    let mut all = String::new(heap);
    let mut said = piles.iter().filter_map(|pile| pile.get(place));
    let Some(first) = said.next() else {
        return Ok(all);
    };
    all.push_str(first.as_str())?;
    if piles.iter().all(|pile| pile.get(place) == Some(first)) {
        return Ok(all);
    }
    for text in said {
        all.push_str(" | ")?;
        all.push_str(text.as_str())?;
    }
    Ok(all)
}

fn read_commands(rt: &HostRuntime) -> io::Result<Vec<Command>> {
    let mut commands = Vec::new(rt.alloc());
    for line in BufReader::new(rt.alloc(), rt.stdin())?.split(rt.alloc(), b'\n') {
        if let Some(command) = command_in(line?.as_slice()) {
            commands.push(command)?;
        }
    }
    Ok(commands)
}

fn main(rt: HostRuntime) -> io::Result<()> {
    let heap = rt.alloc();
    let commands = read_commands(&rt)?;
    let piles = run_all(heap, commands.as_slice())?;
    let mut out = BufWriter::new(heap, rt.stdout())?;
    // Kept: a place by its number, since six lists are read side by side.
    for place in 0..=commands.len() {
        let text = joined(heap, &piles, place)?;
        out.write_all(text.as_bytes())?;
        out.write_all(b"\n")?;
    }
    out.flush()
}
