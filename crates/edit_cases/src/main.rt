// Edits applied one after the other: to a sheet, and to both machines, which must agree with it.
#![tactic(auto)]

use machine::{Opens, ReplayMachine, StateMachine, UndoMachine};
use sheet::{Edit, Row, Sheet};
use std::alloc::{AllocError, Global};
use std::io;
use std::io::{BufRead, BufReader};
use text::edit_in;

// Adds the row, with its number, to the text.
fn add_row(heap: Global, text: &mut String, number: usize, row: &Row) -> Result<(), AllocError> {
    if !text.is_empty() {
        text.push_str("; ")?;
    }
    let label = format!(in heap; "{number}:")?;
    text.push_str(label.as_str())?;
    for cell in row.cells.iter() {
        let value = format!(in heap; " {cell}")?;
        text.push_str(value.as_str())?;
    }
    Ok(())
}

// Every row of the sheet, or only those that differ from the other sheet's.
fn rows_text(heap: Global, sheet: &Sheet, other: Option<&Sheet>) -> Result<String, AllocError> {
    let mut text = String::new(heap);
    for (i, row) in sheet.rows.iter().enumerate() {
        if other.and_then(|before| before.rows.get(i)) != Some(row) {
            add_row(heap, &mut text, i.saturating_add(1), row)?;
        }
    }
    if text.is_empty() {
        text.push_str("same")?;
    }
    Ok(text)
}

// Applies the edit and settles it, and says whether the machine then has the sheet's cells.
fn agrees<M: StateMachine>(machine: &mut M, edit: Edit, sheet: &Sheet) -> bool {
    let _ = machine.apply(edit);
    let same = (1..9).all(|row| {
        (1..13).all(|size| machine.read(row, size).ok() == sheet.cell(row, size))
    });
    let _ = machine.settle();
    same
}

fn main(rt: HostRuntime) -> io::Result<()> {
    let heap = rt.alloc();
    let mut sheet = Sheet::blank();
    let mut undo = UndoMachine::open(heap)?;
    let mut replay = ReplayMachine::open(heap)?;
    for line in BufReader::new(heap, rt.stdin())?.split(heap, b'\n') {
        let line = line?;
        let words = std::str::from_utf8(line.as_slice()).unwrap_or("");
        if words == "sheet" {
            let text = rows_text(heap, &sheet, None)?;
            println!(rt; "{text}")?;
        } else if let Some(edit) = edit_in(words) {
            let after = sheet.apply(edit);
            let text = rows_text(heap, &after, Some(&sheet))?;
            println!(rt; "{text}")?;
            sheet = after;
            if !agrees(&mut undo, edit, &sheet) || !agrees(&mut replay, edit, &sheet) {
                println!(rt; "a machine differs from the sheet")?;
            }
        } else {
            println!(rt; "not an edit")?;
        }
    }
    Ok(())
}
