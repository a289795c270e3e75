// The line that answers a command, written into memory that is reserved beforehand.
ghost use Rattle.std.specs.Prelude.{◌≡◌, ◌≤◌, [], ◌∷◌, length, IfOk, vec_capacity, decimal};
ghost use Rattle.protocol.specs.Shown.{server_shown};
ghost use Rattle.command.specs.Shown.{ending_shown, shown};
ghost use Rattle.command.specs.Writing.{Room, Put};

use crate::reply::Reply;
use crate::types::Found;
use protocol::Status;
use std::alloc::{AllocError, Global};

// No line is longer.
const LINE_MAX: usize = 256;

// A line of output, in memory that is reserved at opening.
// Kept: a Vec and its room, since a list that refuses a byte too many would have each function below tell why none is refused.
// Kept: no impl Model, since a view of the bytes alone hides the room that the functions below ask for.
#[derive(Drop)]
pub struct Line {
    bytes: Vec<u8>,
    ghost room: { 256 ≤ vec_capacity bytes },
}

impl Line {
    // Reserves the memory of a line, which is empty at first.
    pub fn open(heap: Global) -> Result<Line, AllocError>
        ensures { IfOk result (λ l. l.bytes.items ≡ []) }
    {
        let bytes = Vec::with_capacity(heap, LINE_MAX)?;
        Ok(Line { bytes })
    }

    // The bytes that the line holds.
    pub fn bytes(&self) -> &[u8]
        ensures { result.now ≡ self.now.bytes.items }
    {
        self.bytes.as_slice()
    }

    // Writes the line that tells a reply, in place of what the buffer held.
    pub fn write(&mut self, reply: &Reply)
        ensures { self.new.bytes.items ≡ shown reply.now }
    {
        let out = &mut self.bytes;
        let [one, two, three] = &reply.servers;
        out.clear();
        put_number(out, u32::from(reply.number));
        out.push_reserved(b' ');
        put_server(out, one);
        out.push_reserved(b' ');
        put_server(out, two);
        out.push_reserved(b' ');
        put_server(out, three);
        put_ending(out, reply.found);
    }
}

// Puts the digits of a number.
// Kept: by hand and not by the kit's itoa, whose statements would be trusted, and which takes three times as many instructions.
fn put_number(out: &mut Vec<u8>, n: u32)
    requires { Room 10 out.old }
    ensures { Put 10 out.old (decimal n) out.new }
{
    if n < 10 {
        out.push_reserved(b'0' + n as u8);
    } else {
        put_number(out, n / 10);
        out.push_reserved(b'0' + (n % 10) as u8);
    }
}

// Puts a mark, and the digits of a number.
fn put_after(out: &mut Vec<u8>, mark: u8, n: u32)
    requires { Room 11 out.old }
    ensures { Put 11 out.old (mark ∷ decimal n) out.new }
{
    out.push_reserved(mark);
    put_number(out, n);
}

// Puts a text.
fn put_text(out: &mut Vec<u8>, text: &str)
    requires { Room (length text.now) out.old }
    ensures { Put (length text.now) out.old text.now out.new }
{
    let bytes = text.as_bytes();
    for byte in bytes {
        out.push_reserved(*byte);
    }
}

// Puts a server at a glance.
fn put_server(out: &mut Vec<u8>, server: &Status)
    requires { Room 56 out.old }
    ensures { Put 56 out.old (server_shown server.now) out.new }
{
    put_number(out, server.term);
    out.push_reserved(b'/');
    put_text(out, server.state());
    put_after(out, b'/', server.length);
    put_after(out, b'/', server.durable);
    put_after(out, b'/', server.commit);
    put_after(out, b'/', server.applied);
}

// Puts a space and what the call found, if it found something.
fn put_ending(out: &mut Vec<u8>, found: Option<Found>)
    requires { Room 11 out.old }
    ensures { Put 11 out.old (ending_shown found) out.new }
{
    let Some(found) = found else {
        return;
    };
    match found {
        Found::Count(count) => put_after(out, b' ', count),
        Found::Word(standing) => {
            out.push_reserved(b' ');
            put_text(out, standing.word());
        }
        Found::Cell(tenths) => put_after(out, b' ', u32::from(tenths)),
    }
}
