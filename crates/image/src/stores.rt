// The image of any store.
ghost use Rattle.std.specs.Prelude.{◌≡◌, true, length, is_ok};
ghost use Rattle.record.specs.Format.{BallotFits};
ghost use Rattle.store.specs.Stores.{cleared};
ghost use Rattle.image.specs.Images.{held};
ghost use Rattle.image.specs.Stores.{ballot_of, durable_of, image_answer, image_after, Writable, is_empty, loaded, ReadInto, ReadsBackInto, Accepted};
ghost use Rattle.image.specs.Laws.{AllFit};

use crate::contents::Contents;
use crate::fault::{ImageFault, WriteFault};
use crate::parsing::parse;
use record::Ballot;
use store::Store;

// What is durable in a store.
fn durable_contents<S: Store>(store: &S) -> Contents
    ensures ballot { result.ballot ≡ ballot_of (S.meaning store.now) }
    ensures entries { held result ≡ durable_of (S.meaning store.now) }
    ensures ballot_fits { BallotFits result.ballot }
    ensures entries_fit { AllFit (held result) }
{
    let ballot = Ballot {
        term: store.term(),
        vote: store.vote(),
    };
    let mut contents = Contents::new(ballot);
    // Kept: a range of numbers, since a store tells its entries one by one, each by its number.
    for n in 0..store.durable() {
        contents.push(store.entry(n + 1).unwrap());
    }
    contents
}

// Writes the image of a store at the front of the buffer, and tells its length; the bytes behind it stay.
pub fn write<S: Store>(store: &S, buffer: &mut [u8]) -> Result<usize, WriteFault>
    ensures answer { result ≡ image_answer (S.meaning store.now) (length buffer.old) }
    ensures after { buffer.new ≡ image_after (S.meaning store.now) buffer.old }
    ensures writable { is_ok result ≡ true → Writable (S.meaning store.now) }
{
    durable_contents(store).write(buffer)
}

fn is_empty<S: Store>(store: &S) -> bool
    ensures { result ≡ is_empty (S.meaning store.now) }
{
    store.term() == 0 && store.vote() == 0 && store.len() == 0
}

// Puts the contents into an empty store, every entry durable.
fn load<S: Store>(store: &mut S, contents: &Contents)
    requires { S.meaning store.old ≡ cleared }
    ensures { S.meaning store.new ≡ loaded contents.now.ballot (held contents.now) }
{
    store.set(contents.ballot.term, contents.ballot.vote);
    for entry in contents.logged() {
        store.append(*entry).unwrap();
    }
    store.sync();
}

// Reads an image into a store, every entry durable. The whole image is checked before the store is written to.
pub fn read<S: Store>(store: &mut S, bytes: &[u8]) -> Result<(), ImageFault>
    ensures answer { ReadInto (S.meaning store.old) bytes.now result (S.meaning store.new) }
    ensures back { ReadsBackInto (S.meaning store.old) bytes.now result (S.meaning store.new) }
    ensures accepted { Accepted bytes.now result (S.meaning store.new) }
{
    if !is_empty(store) {
        return Err(ImageFault::NotEmpty);
    }
    let contents = parse(bytes)?;
    load(store, &contents);
    Ok(())
}
