// The whole sheet: reading a cell, replacing a row, applying an edit.
ghost use Rattle.std.specs.Prelude.{◌≡◌};
ghost use Rattle.sheet.specs.Cells.{cells_of, row_in};
ghost use Rattle.sheet.specs.Rules.{opening, row_at, with_row, cell_at, new_row, next};

use super::grading::place_of;
use super::kind::Kind;
use super::types::{Edit, Row, Sheet};

impl Sheet {
    // The sheet at opening: every cell is 0.
    #[tactic(auto, unfolding(crate::specs::Rules::opening))]
    pub fn blank() -> Sheet
        ensures { cells_of result ≡ opening }
    {
        let row = Row { cells: [0; 12] };
        Sheet { rows: [row; 8] }
    }

    // The row of that number, if there is one.
    pub fn row(&self, number: i32) -> Option<Row>
        ensures { row_in result ≡ row_at (cells_of self.now) number }
    {
        Some(self.rows[place_of::<8>(number)?])
    }

    // Replaces the row of that number; changes nothing where there is no such row.
    pub fn replace_row(&mut self, number: i32, row: Row)
        ensures { cells_of self.new ≡ with_row (cells_of self.old) number row.cells }
    {
        if let Some(place) = place_of::<8>(number) {
            self.rows[place] = row;
        }
    }

    // The cell at that row and size; refused with nothing where there is none.
    pub fn cell(&self, row: i32, size: i32) -> Option<u16>
        ensures { result ≡ cell_at (cells_of self.now) row size }
    {
        Some(self.row(row)?.cells[place_of::<12>(size)?])
    }

    // The row that the edit puts in place of the one that it names; nothing where it is set aside.
    pub fn new_row(&self, edit: Edit) -> Option<Row>
        ensures { row_in result ≡ new_row (cells_of self.now) edit }
    {
        let old = self.row(edit.row)?;
        match Kind::try_from(edit.kind) {
            Ok(Kind::Set) => old.set(edit.size, edit.a),
            Ok(Kind::Grade) => old.grade(edit.size, edit.a, edit.q),
            Ok(Kind::Copy) => self.row(edit.a),
            Err(_) => None,
        }
    }

    // The sheet after the edit: the same sheet where the edit is set aside.
    pub fn apply(mut self, edit: Edit) -> Sheet
        ensures { cells_of result ≡ next (cells_of self) edit }
    {
        self.change(edit);
        self
    }

    // The same in place.
    #[tactic(auto, unfolding(crate::specs::Rules::next))]
    pub fn change(&mut self, edit: Edit)
        ensures { cells_of self.new ≡ next (cells_of self.old) edit }
    {
        if let Some(row) = self.new_row(edit) {
            self.replace_row(edit.row, row);
        }
    }
}
