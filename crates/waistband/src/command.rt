// The commands of a script.
use sheet::Edit;
use text::{edit_in, two};

#[derive(Clone, Copy)]
pub enum Command<'a> {
    Say(&'a str),
    Apply(Edit),
    Undo,
    Settle,
    Reset,
    Show,
    Cell(i32, i32),
    Mark,
    Same,
    Seam(i32, i32),
}

fn with_words<'a>(word: &str, rest: &'a str) -> Option<Command<'a>> {
    match word {
        "say" => Some(Command::Say(rest)),
        "edit" => Some(Command::Apply(edit_in(rest)?)),
        "cell" => {
            let (row, size) = two(rest)?;
            Some(Command::Cell(row, size))
        }
        "seam" => {
            let (first, second) = two(rest)?;
            Some(Command::Seam(first, second))
        }
        _ => None,
    }
}

pub(crate) fn command_in(line: &str) -> Option<Command<'_>> {
    if let Some((word, rest)) = line.split_once(' ') {
        return with_words(word, rest);
    }
    match line {
        "say" => Some(Command::Say("")),
        "undo" => Some(Command::Undo),
        "settle" => Some(Command::Settle),
        "reset" => Some(Command::Reset),
        "show" => Some(Command::Show),
        "mark" => Some(Command::Mark),
        "same" => Some(Command::Same),
        _ => None,
    }
}
