// table-run: reads commands, makes their calls on a cluster, and prints a line for each.
#![tactic(auto)]

use buffered_store::BufferedStore;
use command::Line;
use machine::UndoMachine;
use session::{answer_line, open};
use std::io;
use std::io::{BufRead, BufReader, BufWriter, Write};
use store::RecordStore;

fn main(rt: HostRuntime) -> io::Result<()> {
    let heap = rt.alloc();
    let mut cluster = open::<BufferedStore<RecordStore>, UndoMachine>(heap)?;
    let mut answer = Line::open(heap)?;
    let mut out = BufWriter::new(heap, rt.stdout())?;
    for line in BufReader::new(heap, rt.stdin())?.split(heap, b'\n') {
        let line = line?;
        answer_line(&mut cluster, line.as_slice(), &mut answer);
        out.write_all(answer.bytes())?;
        out.write_all(b"\n")?;
    }
    out.flush()
}
