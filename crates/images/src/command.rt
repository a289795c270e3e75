// The commands of a script.
use record::Entry;
use sheet::Edit;
use text::{first, number, plain_edit_in, two};

// The longest buffer that an image is written into.
const MAX_ROOM: u32 = 4096;

#[derive(Clone, Copy)]
pub enum Command<'a> {
    Say(&'a str),
    Clear,
    Set(u32, u16),
    Append(Entry),
    Sync,
    Show,
    Write(u32),
    Read(&'a str),
    Reread,
    Cut(u32),
    Byte(u32, u8),
    Load(&'a str),
}

fn entry_in(text: &str) -> Option<Entry> {
    let (term, edit) = first(text)?;
    Some(Entry {
        term,
        edit: plain_edit_in(edit)?,
    })
}

fn byte_in(text: &str) -> Option<(u32, u8)> {
    let (at, value) = two::<u32, u32>(text)?;
    Some((at, u8::try_from(value).ok()?))
}

fn on_store<'a>(word: &str, rest: &str) -> Option<Command<'a>> {
    match word {
        "set" => {
            let (term, vote) = two(rest)?;
            Some(Command::Set(term, vote))
        }
        "append" => Some(Command::Append(entry_in(rest)?)),
        "write" => match number(rest)? {
            room if room <= MAX_ROOM => Some(Command::Write(room)),
            _ => None,
        },
        _ => None,
    }
}

fn on_image<'a>(word: &str, rest: &'a str) -> Option<Command<'a>> {
    match word {
        "say" => Some(Command::Say(rest)),
        "read" if !rest.is_empty() => Some(Command::Read(rest)),
        "load" if !rest.is_empty() => Some(Command::Load(rest)),
        "cut" => Some(Command::Cut(number(rest)?)),
        "byte" => {
            let (at, value) = byte_in(rest)?;
            Some(Command::Byte(at, value))
        }
        _ => None,
    }
}

fn alone<'a>(line: &str) -> Option<Command<'a>> {
    match line {
        "say" => Some(Command::Say("")),
        "clear" => Some(Command::Clear),
        "sync" => Some(Command::Sync),
        "show" => Some(Command::Show),
        "read" => Some(Command::Read("")),
        "load" => Some(Command::Load("")),
        "reread" => Some(Command::Reread),
        _ => None,
    }
}

pub(crate) fn command_in(line: &str) -> Option<Command<'_>> {
    match line.split_once(' ') {
        Some((word, rest)) => on_store(word, rest).or(on_image(word, rest)),
        None => alone(line),
    }
}
