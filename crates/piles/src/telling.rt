// Answers and servers as text.
use cluster::Cluster;
use command::Told;
use machine::StateMachine;
use protocol::ServerId;
use refusal::Refusal;
use std::alloc::{AllocError, Global};
use std::fmt;
use store::Store;

// An answer, in words.
#[derive(Clone, Copy)]
pub(crate) struct InWords(pub(crate) Result<Told, Refusal>);

impl fmt::Display for InWords {
    fn fmt<W: fmt::Write>(&self, f: &mut fmt::Formatter<W>) -> fmt::Result {
        match self.0 {
            Err(refusal) => {
                let number = refusal.number();
                write!(f, "refused {number}")
            }
            Ok(Told::Done) => write!(f, "done"),
            Ok(Told::Lost(count)) => write!(f, "lost {count}"),
            Ok(Told::Ticket { number, term }) => write!(f, "ticket {number} {term}"),
            Ok(Told::Kept(count)) => write!(f, "keeps {count}"),
            Ok(Told::Standing(standing)) => write!(f, "{standing}"),
            Ok(Told::Cell(tenths)) => write!(f, "cell {tenths}"),
        }
    }
}

// The three servers at a glance.
pub(crate) fn servers_text<S: Store + Drop, M: StateMachine + Drop>(
    heap: Global,
    cluster: &Cluster<S, M>,
) -> Result<String, AllocError> {
    let one = cluster.status(ServerId::One);
    let two = cluster.status(ServerId::Two);
    let three = cluster.status(ServerId::Three);
    format!(in heap; "{one} {two} {three}")
}
