// One row: a cell set, or the whole row graded.
ghost use Rattle.std.specs.Prelude.{◌≡◌, ℕ, ◌+◌, ◌<◌, ◌≤◌, true, false, ℤ, pos, negsuc, ◌+ℤ◌, ◌-ℤ◌, ◌*ℤ◌, ◌≤ℤ◌, IfSome, MatchOption, slice_index};
ghost use Rattle.sheet.specs.Cells.{row_in};
ghost use Rattle.sheet.specs.Rules.{between, in_range, place, may_grade, floor_div, graded, set_row, grade_row};
ghost use Rattle.sheet.specs.Grading.{Graded};

use super::types::{CELL_MAX, Row};

// The place in an array of `N` of what is numbered from 1, if it has one.
pub(crate) fn place_of<const N: usize>(number: i32) -> Option<usize>
    ensures { MatchOption result (between (pos 1) (pos N) number ≡ false) (λ i. (between (pos 1) (pos N) number ≡ true) × (i ≡ place number) × (i < N)) }
{
    let place = usize::try_from(number).ok()?.checked_sub(1)?;
    if place < N { Some(place) } else { None }
}

const LARGEST: i32 = CELL_MAX as i32;

// The number as a cell, unless it is out of range.
// Kept: a cast, since with `u16::try_from` the replay machine misses its bar of speed.
fn cell_of(number: i32) -> Option<u16>
    ensures { MatchOption result (in_range number ≡ false) (λ cell. (pos cell ≡ number) × (cell ≤ 30000)) }
{
    match number {
        0..=LARGEST => Some(number as u16),
        _ => None,
    }
}

// The quotient of `z` by twice `q`, rounded down.
fn floor_div(z: i32, q: i32) -> i32
    requires { (pos 1 ≤ℤ q) × (q ≤ℤ pos 1000) }
    ensures { result ≡ floor_div z (pos 2 *ℤ q) }
{
    z.div_euclid(2 * q)
}

// How a row is graded: from the base cell at `size`, by `a` every `q` sizes.
#[derive(Clone, Copy)]
struct Grading {
    base: u16,
    size: i32,
    a: i32,
    q: i32,
    ghost ranged_base: { base ≤ 30000 },
    ghost ranged_size: { (pos 1 ≤ℤ size) × (size ≤ℤ pos 12) },
    ghost ranged_a: { (negsuc 99999 ≤ℤ a) × (a ≤ℤ pos 100000) },
    ghost ranged_q: { (pos 1 ≤ℤ q) × (q ≤ℤ pos 1000) },
}

impl Grading {
    // Nothing where a number is out of its range.
    fn of(row: Row, size: i32, a: i32, q: i32) -> Option<Grading>
        ensures { MatchOption result (may_grade size a q ≡ false) (λ g. (may_grade size a q ≡ true) × (g.base ≡ slice_index row.cells (place size)) × (g.size ≡ size) × (g.a ≡ a) × (g.q ≡ q)) }
    {
        let base = row.cells[place_of::<12>(size)?];
        match (a, q) {
            (-100_000..=100_000, 1..=1_000) => Some(Grading { base, size, a, q }),
            _ => None,
        }
    }

    // Twice the way from the base size to `s`, at a step of `a`, and `q` more.
    fn away(&self, s: i32) -> i32
        requires { (pos 1 ≤ℤ s) × (s ≤ℤ pos 12) }
        ensures { result ≡ pos 2 *ℤ (s -ℤ self.now.size) *ℤ self.now.a +ℤ self.now.q }
    {
        2 * (s - self.size) * self.a + self.q
    }

    // What grading gives at size `s`, in range or not.
    fn number(&self, s: i32) -> i32
        requires { (pos 1 ≤ℤ s) × (s ≤ℤ pos 12) }
        ensures { result ≡ graded self.now.base self.now.size self.now.a self.now.q s }
    {
        i32::from(self.base) + floor_div(self.away(s), self.q)
    }

    // The graded cell at the place `i`, unless it would leave its range.
    fn cell(&self, i: usize) -> Option<u16>
        requires { i < 12 }
        ensures { MatchOption result (in_range (graded self.now.base self.now.size self.now.a self.now.q (pos (i + 1))) ≡ false) (λ cell. (pos cell ≡ graded self.now.base self.now.size self.now.a self.now.q (pos (i + 1))) × (cell ≤ 30000)) }
    {
        cell_of(self.number(i as i32 + 1))
    }
}

// Kept: the words size, a and q one by one, as an edit has them, since setting names only two of them.
impl Row {
    // The row with the cell at `size` set to `a`; nothing where the edit is set aside.
    pub fn set(self, size: i32, a: i32) -> Option<Row>
        ensures { row_in result ≡ set_row self.cells size a }
    {
        let place = place_of::<12>(size)?;
        let mut cells = self.cells;
        cells[place] = cell_of(a)?;
        Some(Row { cells })
    }

    // The whole row graded from its cell at `size`; nothing where the edit is set aside.
    pub fn grade(self, size: i32, a: i32, q: i32) -> Option<Row>
        ensures cells { row_in result ≡ grade_row self.cells size a q }
        ensures nearest { IfSome (row_in result) (Graded self.cells size a q) }
    {
        let grading = Grading::of(self, size, a, q)?;
        let mut cells = self.cells;
        for (i, cell) in cells.iter_mut().enumerate() {
            *cell = grading.cell(i)?;
        }
        Some(Row { cells })
    }
}
