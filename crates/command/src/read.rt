// A line as a command.
ghost use Rattle.std.specs.Prelude.{◌≡◌};
ghost use Rattle.text.specs.Words.{Finds};
ghost use Rattle.command.specs.Grammar.{FindsOnly, Three, Says, Reads};

use crate::types::Command;
use text::{cut, first, number, plain_edit_in, two};

// Three numbers.
fn three(text: &str) -> Option<(u32, u32, u32)>
    ensures { Finds result (λ x. Three x.0 x.1 x.2 text.now) }
{
    let (a, rest) = first(text)?;
    let (b, c) = two(rest)?;
    Some((a, b, c))
}

// The command with a name, and the numbers after it.
fn named(name: &str, rest: &str) -> Option<Command>
    ensures { Finds result (λ c. Says name.now rest.now c) }
{
    match name {
        "campaign" => number(rest).map(|server| Command::Campaign { server }),
        "deliver" => two(rest).map(|(position, keep)| Command::Deliver { position, keep }),
        "lose" => number(rest).map(|position| Command::Lose { position }),
        "propose" => {
            let (server, rest) = first(rest)?;
            plain_edit_in(rest).map(|edit| Command::Propose { server, edit })
        }
        "firm" => number(rest).map(|server| Command::Firm { server }),
        "send" => two(rest).map(|(server, receiver)| Command::Send { server, receiver }),
        "apply" => number(rest).map(|server| Command::Apply { server }),
        "outage" => two(rest).map(|(server, wish)| Command::Outage { server, wish }),
        "restart" => number(rest).map(|server| Command::Restart { server }),
        "standing" => three(rest).map(|(server, number, term)| Command::Standing {
            server,
            number,
            term,
        }),
        "look" => three(rest).map(|(server, row, size)| Command::Look { server, row, size }),
        _ => None,
    }
}

// The command of a text.
fn parsed(text: &str) -> Option<Command>
    ensures { Finds result (λ c. Reads text.now c) }
{
    let (name, rest) = cut(text)?;
    named(name, rest)
}

// The command of a line: its only reading. Bytes that are no text have none.
pub fn command_in(line: &[u8]) -> Option<Command>
    ensures { FindsOnly result (λ c. Reads line.now c) }
{
    // Kept: as a chain of `ok` and `and_then` the proof stayed open.
    match std::str::from_utf8(line) {
        Ok(text) => parsed(text),
        Err(_) => None,
    }
}
