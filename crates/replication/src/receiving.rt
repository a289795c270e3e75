// The receiver of an append request, with all its cases in order.
ghost use Rattle.std.specs.Prelude.{◌≡◌, suc, ◌<◌, ◌≤◌, min, [], ◌∷◌, ◌++◌, length, take};
ghost use Rattle.protocol.specs.State.{set_log, set_applied};
ghost use Rattle.protocol.specs.AppendEntries.{follows, reaches, accepts, accepted, accepted_to, took as took_it, took_to, no_to, hears_append, append_reply};
ghost use Rattle.node.specs.Meaning.{server_of, Goes};

use node::Node;
use protocol::{AppendEntries, Body, Message, Role, ServerId};
use record::Entry;
use store::{MAX_ENTRIES, Store};

// Whether the first `previous` entries are held, the last of them of this term.
fn reaches_to<S: Store + Drop>(node: &Node<S>, previous: u32, term: u32) -> bool
    ensures { result ≡ reaches (server_of S.Store node.now).log previous term }
{
    previous <= node.len() && node.tip(previous) == term
}

fn follow<S: Store + Drop>(node: &mut Node<S>)
    ensures { Goes S.Store node.old follows node.new }
{
    node.role = Role::Follower;
}

// Syncs the log as it is. The logs agree through `agreed`, and the sender's commit is `commit`.
fn hold<S: Store + Drop>(node: &mut Node<S>, agreed: u32, commit: u32)
    ensures { Goes S.Store node.old (λ s. accepts s.log s.applied agreed commit s) node.new }
{
    node.store.sync();
    node.role = Role::Follower;
    node.commit = node.commit.max(commit.min(agreed));
}

// Puts an entry in the place of all after the first `previous`. What was applied above is to be undone.
fn replace<S: Store + Drop>(node: &mut Node<S>, previous: u32, entry: Entry)
    requires { previous < length (server_of S.Store node.old).log }
    ensures { Goes S.Store node.old (λ s. set_applied (min s.applied previous) (set_log (take previous s.log ++ entry ∷ []) (min previous s.durable) s)) node.new }
{
    let _ = node.store.truncate(previous as usize);
    let _ = node.store.append(entry);
    node.applied = node.applied.min(previous);
}

// One entry with the number after `previous`; the answer is through which entry the logs agree, if it says yes.
fn accept<S: Store + Drop>(
    node: &mut Node<S>,
    previous: u32,
    commit: u32,
    entry: Entry,
) -> Option<u16>
    ensures after { Goes S.Store node.old (accepted previous commit entry) node.new }
    ensures says { result ≡ accepted_to previous entry (server_of S.Store node.old) }
{
    if previous as usize >= MAX_ENTRIES {
        follow(node);
        return None;
    }
    match node.held(previous) {
        Some(held) if held.term == entry.term => {}
        Some(_) if previous < node.commit => {
            follow(node);
            return None;
        }
        Some(_) => replace(node, previous, entry),
        None => {
            let _ = node.store.append(entry);
        }
    }
    hold(node, previous + 1, commit);
    Some(previous as u16 + 1)
}

// At most one entry; with none, only syncing and commit are left.
fn take_in<S: Store + Drop>(node: &mut Node<S>, append: AppendEntries) -> Option<u16>
    requires { append.previous ≤ length (server_of S.Store node.old).log }
    ensures after { Goes S.Store node.old (took_it append.previous append.commit append.entry) node.new }
    ensures says { result ≡ took_to append.previous append.entry (server_of S.Store node.old) }
{
    match append.entry {
        None => {
            hold(node, append.previous, append.commit);
            Some(append.previous as u16)
        }
        Some(entry) => accept(node, append.previous, append.commit, entry),
    }
}

fn no_to<S: Store + Drop>(node: &Node<S>, from: ServerId, to: ServerId) -> Message
    ensures { result ≡ no_to from to (server_of S.Store node.now) }
{
    Message {
        from: to,
        to: from,
        term: node.store.term(),
        body: Body::AppendReply(None),
    }
}

// An append request; from, to and term are the message's.
pub fn hear_append<S: Store + Drop>(
    node: &mut Node<S>,
    message: Message,
    append: AppendEntries,
) -> Option<Message>
    ensures after { Goes S.Store node.old (hears_append message.term append) node.new }
    ensures says { result ≡ append_reply message.from message.to message.term append (server_of S.Store node.old) }
{
    if message.term != node.store.term() {
        return Some(no_to(node, message.from, message.to));
    }
    if node.role == Role::Leader {
        return None;
    }
    if !reaches_to(node, append.previous, append.previous_term) {
        follow(node);
        return Some(no_to(node, message.from, message.to));
    }
    let agreed = take_in(node, append)?;
    Some(Message {
        from: message.to,
        to: message.from,
        term: message.term,
        body: Body::AppendReply(Some(agreed)),
    })
}
