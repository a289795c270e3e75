// A script of edits, run over both machines.
#![tactic(auto)]

mod command;
mod table;

use command::{Command, command_in};
use machine::{Opens, ReplayMachine, StateMachine, UndoMachine};
use refusal::Refusal;
use std::io;
use std::io::{BufRead, BufReader};
use table::{Cells, NO_CELLS, ROWS, SIZES, cells_of, differing, measures_line, sizes_line};
use text::{difference, millimetres};

// Shows what was answered, or the number of the refusal.
fn told<T: Drop, F: FnOnce(T) -> io::Result<()>>(
    rt: &HostRuntime,
    answer: Result<T, Refusal>,
    show: F,
) -> io::Result<()>
    requires { F.IsAlwaysCallable show }
{
    match answer {
        Ok(value) => show(value),
        Err(refusal) => {
            let number = refusal.number();
            println!(rt; "refused {number}")
        }
    }
}

fn show(rt: &HostRuntime, cells: &Cells) -> io::Result<()> {
    let heap = rt.alloc();
    let sizes = sizes_line(heap, "measure")?;
    println!(rt; "{sizes}")?;
    for (number, row) in ROWS.iter().zip(cells) {
        let label = format!(in heap; "{number}")?;
        let line = measures_line(heap, label.as_str(), &row.map(i32::from))?;
        println!(rt; "{line}")?;
    }
    Ok(())
}

fn show_cell(rt: &HostRuntime, cell: u16) -> io::Result<()> {
    let text = millimetres(rt.alloc(), i32::from(cell))?;
    println!(rt; "{text}")
}

// The first row less the second, at each size.
fn seam<M: StateMachine>(machine: &M, first: i32, second: i32) -> Result<[i32; 12], Refusal> {
    let mut measures = [0; 12];
    for (measure, size) in measures.iter_mut().zip(SIZES) {
        *measure = difference(machine.read(first, size)?, machine.read(second, size)?);
    }
    Ok(measures)
}

fn show_seam(rt: &HostRuntime, measures: &[i32]) -> io::Result<()> {
    let heap = rt.alloc();
    let sizes = sizes_line(heap, "size")?;
    let line = measures_line(heap, "seam", measures)?;
    println!(rt; "{sizes}")?;
    println!(rt; "{line}")
}

fn compare(rt: &HostRuntime, marked: &Cells, cells: &Cells) -> io::Result<()> {
    match differing(marked, cells) {
        0 => println!(rt; "every cell is what it was"),
        count => println!(rt; "{count} cells differ"),
    }
}

fn step<M: StateMachine>(
    rt: &HostRuntime,
    machine: &mut M,
    marked: &mut Cells,
    command: Command,
) -> io::Result<()> {
    match command {
        Command::Say(text) => println!(rt; "{text}"),
        Command::Apply(edit) => told(rt, machine.apply(edit), |()| Ok(())),
        Command::Undo => told(rt, machine.undo(), |()| Ok(())),
        Command::Settle => told(rt, machine.settle(), |()| Ok(())),
        Command::Reset => {
            machine.reset();
            Ok(())
        }
        Command::Show => show(rt, &cells_of(machine)),
        Command::Cell(row, size) => told(rt, machine.read(row, size), |cell| show_cell(rt, cell)),
        Command::Mark => {
            *marked = cells_of(machine);
            Ok(())
        }
        Command::Same => compare(rt, marked, &cells_of(machine)),
        Command::Seam(first, second) => {
            told(
                rt,
                seam(machine, first, second),
                |measures| show_seam(rt, &measures),
            )
        }
    }
}

fn run<M: Opens + Drop>(rt: &HostRuntime, lines: &[Vec<u8>]) -> io::Result<()> {
    let mut machine = M::open(rt.alloc())?;
    let mut marked = NO_CELLS;
    for line in lines {
        match std::str::from_utf8(line.as_slice())
            .ok()
            .and_then(command_in)
        {
            Some(command) => step(rt, &mut machine, &mut marked, command)?,
            None => println!(rt; "not a command")?,
        }
    }
    Ok(())
}

fn main(rt: HostRuntime) -> io::Result<()> {
    let heap = rt.alloc();
    let mut lines = Vec::new(heap);
    for line in BufReader::new(heap, rt.stdin())?.split(heap, b'\n') {
        lines.push(line?)?;
    }
    println!(rt; "machine: undo")?;
    run::<UndoMachine>(&rt, lines.as_slice())?;
    println!(rt; "machine: replay")?;
    run::<ReplayMachine>(&rt, lines.as_slice())
}
