// The kinds of edits, and the numbers that stand for them.
ghost use Rattle.std.specs.Prelude.{◌≡◌};
ghost use Rattle.sheet.specs.Kinds.{number_of, kind_of};

#[derive(Clone, Copy, Debug, PartialEq, Eq)]
pub enum Kind {
    // The cell at `size` becomes `a`.
    Set = 1,
    // The whole row is graded from its cell at `size`, by `a` every `q` sizes.
    Grade = 2,
    // The row becomes a copy of row number `a`.
    Copy = 3,
}

// A number that stands for no kind of edit.
#[derive(Clone, Copy, Debug, PartialEq, Eq)]
pub struct UnknownKind(pub u16);

impl From<Kind> for u16 {
    ghost from_gives = { λ kind number. number ≡ number_of kind };

    fn from(kind: Kind) -> u16 {
        kind as u16
    }
}

impl TryFrom<u16> for Kind {
    type Error = UnknownKind;

    ghost try_from_gives = { λ number kind. kind ≡ kind_of number };

    fn try_from(number: u16) -> Result<Kind, UnknownKind> {
        match number {
            1 => Ok(Kind::Set),
            2 => Ok(Kind::Grade),
            3 => Ok(Kind::Copy),
            _ => Err(UnknownKind(number)),
        }
    }
}
