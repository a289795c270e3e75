// What is read off a machine: every cell of its newest sheet, and lines of a table.
ghost use Rattle.std.specs.Prelude.{◌≡◌};
ghost use Rattle.std.specs.Option.{unwrap_or};
ghost use Rattle.machine.specs.States.{newest};

use machine::StateMachine;
use std::alloc::{AllocError, Global};
use text::millimetres;

pub type Cells = [[u16; 12]; 8];

pub const NO_CELLS: Cells = [[0; 12]; 8];

pub const ROWS: [i32; 8] = [1, 2, 3, 4, 5, 6, 7, 8];

pub const SIZES: [i32; 12] = [1, 2, 3, 4, 5, 6, 7, 8, 9, 10, 11, 12];

// A cell of the newest sheet, and 0 where there is none.
pub(crate) fn cell_at<M: StateMachine>(machine: &M, row: i32, size: i32) -> u16
    ensures { result ≡ unwrap_or (M.cell (newest M.opening (M.states machine.now)) row size) 0 }
{
    machine.read(row, size).unwrap_or(0)
}

// Every cell of the newest sheet.
// Kept: cells written one by one, since a `map` of `map`s takes twice the time.
pub(crate) fn cells_of<M: StateMachine>(machine: &M) -> Cells {
    let mut cells = NO_CELLS;
    for (row, number) in cells.iter_mut().zip(1..9) {
        for (j, cell) in row.iter_mut().enumerate() {
            *cell = cell_at(machine, number, j as i32 + 1);
        }
    }
    cells
}

// How many cells differ.
pub(crate) fn differing(first: &Cells, second: &Cells) -> usize {
    let pairs = first.as_flattened().iter().zip(second.as_flattened());
    pairs.filter(|(a, b)| a != b).count()
}

// A label, and the text of each number, which fills its column.
fn line_of<F: Fn(i32) -> Result<String, AllocError>>(
    heap: Global,
    label: &str,
    numbers: &[i32],
    text_of: F,
) -> Result<String, AllocError>
    requires { F.IsAlwaysCallable text_of }
{
    let mut line = format!(in heap; "{label:>7}")?;
    for number in numbers {
        let text = text_of(*number)?;
        line.push_str(text.as_str())?;
    }
    Ok(line)
}

// A label, and the numbers of the sizes.
pub(crate) fn sizes_line(heap: Global, label: &str) -> Result<String, AllocError> {
    line_of(heap, label, &SIZES, |size| format!(in heap; "{size:>8}"))
}

// A label, and each measure in millimetres.
pub(crate) fn measures_line(
    heap: Global,
    label: &str,
    measures: &[i32],
) -> Result<String, AllocError> {
    line_of(heap, label, measures, |tenths| {
        let text = millimetres(heap, tenths)?;
        format!(in heap; "{text:>8}")
    })
}
