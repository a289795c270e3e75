// A script of stores and their images, read into each of the three kinds of store.
#![tactic(auto)]

mod command;
mod compare;

use buffered_store::BufferedStore;
use byte_store::ByteStore;
use command::{Command, command_in};
use compare::same_store;
use image::ImageFault;
use record::Entry;
use sheet::Edit;
use std::alloc::{AllocError, Global};
use std::io;
use std::io::{BufRead, BufReader};
use store::{OpensEmpty, RecordStore, Store};
use text::hex_digit;

// The script's own store, the image last written, and a store of each kind to read into.
#[derive(Drop)]
struct Bench {
    store: RecordStore,
    written: Vec<u8>,
    record: RecordStore,
    bytes: ByteStore,
    buffered: BufferedStore<RecordStore>,
}

fn open(heap: Global) -> Result<Bench, AllocError> {
    Ok(Bench {
        store: OpensEmpty::open_empty(heap)?,
        written: Vec::new(heap),
        record: OpensEmpty::open_empty(heap)?,
        bytes: OpensEmpty::open_empty(heap)?,
        buffered: OpensEmpty::open_empty(heap)?,
    })
}

// The bytes that the pairs of digits write; nothing where that is no such text.
fn bytes_in(heap: Global, text: &str) -> Result<Option<Vec<u8>>, AllocError> {
    let mut bytes = Vec::new(heap);
    for pair in text.as_bytes().chunks(2) {
        let [high, low] = pair else {
            return Ok(None);
        };
        let (Some(high), Some(low)) = (hex_digit(*high), hex_digit(*low)) else {
            return Ok(None);
        };
        bytes.push((high & 15) * 16 + (low & 15))?;
    }
    Ok(Some(bytes))
}

fn show<S: Store>(rt: &HostRuntime, store: &S) -> io::Result<()> {
    let (term, vote, durable, length) = (store.term(), store.vote(), store.durable(), store.len());
    println!(rt; "term {term} vote {vote} durable {durable} of {length}")?;
    for number in 1..=length {
        if let Ok(Entry { term, edit }) = store.entry(number) {
            let Edit {
                kind,
                row,
                size,
                a,
                q,
            } = edit;
            println!(rt; "{number}: {term} {kind} {row} {size} {a} {q}")?;
        }
    }
    Ok(())
}

fn show_fault(rt: &HostRuntime, fault: ImageFault) -> io::Result<()> {
    let (number, offset, reader) = (fault.number(), fault.offset(), fault.reader());
    println!(rt; "fault {number} at {offset} by {reader}")
}

fn read_fresh<S: Store>(store: &mut S, bytes: &[u8]) -> Result<(), ImageFault> {
    store.clear();
    image::read(store, bytes)
}

// Reads the bytes into an empty store of each kind.
fn read_all(rt: &HostRuntime, bench: &mut Bench, bytes: &[u8]) -> io::Result<()> {
    let first = read_fresh(&mut bench.record, bytes);
    let second = read_fresh(&mut bench.bytes, bytes);
    let third = read_fresh(&mut bench.buffered, bytes);
    if first != second
        || first != third
        || !same_store(&bench.record, &bench.bytes)
        || !same_store(&bench.record, &bench.buffered)
    {
        return println!(rt; "the stores differ");
    }
    match first {
        Ok(()) => show(rt, &bench.record),
        Err(fault) => show_fault(rt, fault),
    }
}

fn show_record(rt: &HostRuntime, bytes: &[u8]) -> io::Result<()> {
    let heap = rt.alloc();
    let mut line = String::new(heap);
    for byte in bytes {
        if !line.is_empty() {
            line.push_str(" ")?;
        }
        let digits = format!(in heap; "{byte:02x}")?;
        line.push_str(digits.as_str())?;
    }
    println!(rt; "{line}")
}

// The opening record takes ten bytes, and each other 26.
fn show_image(rt: &HostRuntime, image: &[u8]) -> io::Result<()> {
    let (opening, entries) = image.split_at(image.len().min(10));
    show_record(rt, opening)?;
    for record in entries.chunks(26) {
        show_record(rt, record)?;
    }
    let length = image.len();
    println!(rt; "{length} bytes")
}

fn untouched(bytes: &[u8]) -> bool {
    bytes.iter().all(|byte| *byte == 255)
}

fn write(rt: &HostRuntime, bench: &mut Bench, room: u32) -> io::Result<()> {
    let heap = rt.alloc();
    let mut buffer = vec![in heap; 255u8; room as usize]?;
    let answer = image::write(&bench.store, buffer.as_mut_slice());
    let whole = buffer.as_slice();
    match answer {
        Ok(length) => {
            let (image, behind) = whole.split_at(length.min(whole.len()));
            bench.written = Vec::from_slice(heap, image)?;
            show_image(rt, image)?;
            if !untouched(behind) {
                println!(rt; "the buffer changed")?;
            }
        }
        Err(fault) => {
            let number = fault.number();
            println!(rt; "refused {number}")?;
            if !untouched(whole) {
                println!(rt; "the buffer changed")?;
            }
        }
    }
    Ok(())
}

// Does something with the bytes that a text writes in digits.
fn with_bytes<F: FnOnce(&[u8]) -> io::Result<()>>(
    rt: &HostRuntime,
    text: &str,
    then: F,
) -> io::Result<()>
    requires { F.IsAlwaysCallable then }
{
    match bytes_in(rt.alloc(), text)? {
        Some(bytes) => then(bytes.as_slice()),
        None => println!(rt; "not a command"),
    }
}

fn load(rt: &HostRuntime, bench: &mut Bench, bytes: &[u8]) -> io::Result<()> {
    match image::read(&mut bench.store, bytes) {
        Ok(()) => show(rt, &bench.store),
        Err(fault) => show_fault(rt, fault),
    }
}

// The image last written, cut to a length and with one byte replaced.
fn damaged(
    rt: &HostRuntime,
    bench: &mut Bench,
    length: usize,
    change: Option<(u32, u8)>,
) -> io::Result<()> {
    let mut bytes = bench.written.clone()?;
    bytes.truncate(length);
    if let Some((at, value)) = change {
        if let Some(byte) = bytes.get_mut(at as usize) {
            *byte = value;
        }
    }
    read_all(rt, bench, bytes.as_slice())
}

fn step(rt: &HostRuntime, bench: &mut Bench, command: Option<Command>) -> io::Result<()> {
    let Some(command) = command else {
        return println!(rt; "not a command");
    };
    match command {
        Command::Say(text) => println!(rt; "{text}"),
        Command::Clear => {
            bench.store.clear();
            Ok(())
        }
        Command::Set(term, vote) => {
            bench.store.set(term, vote);
            Ok(())
        }
        Command::Append(entry) => match bench.store.append(entry) {
            Ok(()) => Ok(()),
            Err(refusal) => {
                let number = refusal.number();
                println!(rt; "refused {number}")
            }
        },
        Command::Sync => {
            bench.store.sync();
            Ok(())
        }
        Command::Show => show(rt, &bench.store),
        Command::Write(room) => write(rt, bench, room),
        Command::Read(text) => with_bytes(rt, text, |bytes| read_all(rt, bench, bytes)),
        Command::Reread => damaged(rt, bench, usize::MAX, None),
        Command::Cut(length) => damaged(rt, bench, length as usize, None),
        Command::Byte(at, value) => damaged(rt, bench, usize::MAX, Some((at, value))),
        Command::Load(text) => with_bytes(rt, text, |bytes| load(rt, bench, bytes)),
    }
}

fn on_line(rt: &HostRuntime, bench: &mut Bench, line: &[u8]) -> io::Result<()> {
    let command = std::str::from_utf8(line).ok().and_then(command_in);
    step(rt, bench, command)
}

fn main(rt: HostRuntime) -> io::Result<()> {
    let heap = rt.alloc();
    let mut bench = open(heap)?;
    for line in BufReader::new(heap, rt.stdin())?.split(heap, b'\n') {
        let line = line?;
        on_line(&rt, &mut bench, line.as_slice())?;
    }
    Ok(())
}
