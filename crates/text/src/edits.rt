// An edit as five words of a text, one space apart: kind, row, size, a and q.
ghost use Rattle.std.specs.Prelude.{◌≡◌};
ghost use Rattle.text.specs.Words.{Finds, FromRow, EditIn, SignedEditIn};

use crate::numbers::{first, number};
use sheet::Edit;

// The edit of a kind whose other words the text writes.
fn of_kind(kind: u16, text: &str) -> Option<Edit>
    ensures { Finds result (λ e. (e.kind ≡ kind) × FromRow e text.now) }
{
    let (row, rest) = first(text)?;
    let (size, rest) = first(rest)?;
    let (a, rest) = first(rest)?;
    let q = number(rest)?;
    Some(Edit {
        kind,
        row,
        size,
        a,
        q,
    })
}

// The edit that the text writes. Its kind may be written as -0.
pub fn edit_in(text: &str) -> Option<Edit>
    ensures { Finds result (λ e. SignedEditIn e text.now) }
{
    let (kind, rest) = first::<i32>(text)?;
    of_kind(u16::try_from(kind).ok()?, rest)
}

// The same, where the kind has no sign.
pub fn plain_edit_in(text: &str) -> Option<Edit>
    ensures { Finds result (λ e. EditIn e text.now) }
{
    let (kind, rest) = first::<u16>(text)?;
    of_kind(kind, rest)
}
