// A ticket that may already have been spent: None is a spent one.
use cluster::{Cluster, Outcome, Ticket, Unclosed};
use machine::StateMachine;
use refusal::Refusal;
use store::Store;

// What a close answered, with the server and the ticket's numbers.
#[derive(Clone, Copy)]
pub struct Closing {
    pub server: u32,
    pub number: u32,
    pub term: u32,
    pub answer: Result<Outcome, Refusal>,
}

// Closes the ticket at a server, or keeps it. A spent one is told as refused.
pub(crate) fn close<S: Store + Drop, M: StateMachine + Drop>(
    held: Option<Ticket>,
    cluster: &Cluster<S, M>,
    server: u32,
) -> (Option<Ticket>, Closing) {
    // Kept: the numbers of a spent ticket are told as 0, as a line of the story prints a number in their place.
    let Some(ticket) = held else {
        let closing = Closing {
            server,
            number: 0,
            term: 0,
            answer: Err(Refusal::Undecided),
        };
        return (None, closing);
    };
    let number = ticket.number();
    let term = ticket.term();
    let (held, answer) = match cluster.close(server, ticket) {
        Ok(outcome) => (None, Ok(outcome)),
        Err(Unclosed { refusal, ticket }) => (Some(ticket), Err(refusal)),
    };
    let closing = Closing {
        server,
        number,
        term,
        answer,
    };
    (held, closing)
}

// Writes the ticket off, if it is not spent.
pub(crate) fn write_off(held: Option<Ticket>) {
    if let Some(ticket) = held {
        ticket.write_off();
    }
}
