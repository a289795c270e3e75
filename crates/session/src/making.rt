// A command's call on a cluster.
ghost use Rattle.std.specs.Prelude.{◌≡◌};
ghost use Rattle.command.specs.declared.types.Told.TheVariants.{Ticket as TicketTold};
ghost use Rattle.session.specs.Made.{as_word, Makes};

use cluster::{Cluster, Ticket};
use command::{Command, Told};
use machine::StateMachine;
use refusal::Refusal;
use store::Store;

// A ticket is told, and written off.
fn handed_out(ticket: Ticket) -> Told
    ensures { result ≡ TicketTold ticket.proposed.number ticket.proposed.term }
{
    let number = ticket.number();
    let term = ticket.term();
    ticket.write_off();
    Told::Ticket { number, term }
}

// A row or a size past all signed numbers is taken as the largest, which names none.
fn signed(number: u32) -> i32
    ensures { result ≡ as_word number }
{
    i32::try_from(number).unwrap_or(i32::MAX)
}

// Makes the call of a command, and tells what it found.
pub fn make<S: Store + Drop, M: StateMachine + Drop>(
    cluster: &mut Cluster<S, M>,
    command: Command,
) -> Result<Told, Refusal>
    ensures { Makes command result cluster.old cluster.new }
{
    Ok(match command {
        Command::Campaign { server } => Told::Lost(cluster.campaign(server)?),
        Command::Deliver { position, keep } => Told::Lost(cluster.deliver(position, keep != 0)?),
        Command::Lose { position } => cluster.lose(position).map(|()| Told::Done)?,
        Command::Propose { server, edit } => handed_out(cluster.propose_ticket(server, edit)?),
        Command::Firm { server } => cluster.firm(server).map(|()| Told::Done)?,
        Command::Send { server, receiver } => Told::Lost(cluster.send(server, receiver)?),
        Command::Apply { server } => cluster.apply(server).map(|()| Told::Done)?,
        Command::Outage { server, wish } => Told::Kept(cluster.outage(server, wish)?),
        Command::Restart { server } => cluster.restart(server).map(|()| Told::Done)?,
        Command::Standing {
            server,
            number,
            term,
        } => Told::Standing(cluster.standing(server, number, term)?),
        Command::Look { server, row, size } => Told::Cell(cluster.look(
            server,
            signed(row),
            signed(size),
        )?),
    })
}
