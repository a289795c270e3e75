// An edit, a row and a sheet. The range of a cell is part of the row's type.
ghost use Rattle.std.specs.Prelude.{ℕ, ◌≤◌, slice_index};

// Tenths of a millimetre, at most.
pub const CELL_MAX: u16 = 30_000;

// An edit: a kind, and four words of which each kind names some.
#[derive(Clone, Copy, Debug, Default, PartialEq, Eq)]
pub struct Edit {
    // Kept: a number and no `Kind`, since a record keeps any number, and other numbers change nothing.
    pub kind: u16,
    pub row: i32,
    pub size: i32,
    pub a: i32,
    pub q: i32,
}

// One measure in twelve sizes, in tenths of a millimetre.
#[derive(Clone, Copy, Debug, PartialEq, Eq)]
pub struct Row {
    pub cells: [u16; 12],
    ghost ranged: { (k : ℕ) → slice_index cells k ≤ 30000 },
}

// Eight measures.
#[derive(Clone, Copy)]
pub struct Sheet {
    pub rows: [Row; 8],
}
