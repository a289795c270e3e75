// A leader: its append requests, the replies to them, and its commit.
ghost use Rattle.std.specs.Prelude.{◌≡◌, suc, ◌&&◌, length, ◌==◌};
ghost use Rattle.protocol.specs.State.{term_at};
ghost use Rattle.protocol.specs.AppendEntries.{append_request, got_yes, got_no, got_reply, known as known_of, two_hold, top, raises, hears_reply};
ghost use Rattle.protocol.specs.Rules.{syncs};
ghost use Rattle.node.specs.Meaning.{server_of, Goes};

use node::Node;
use node::elections::two_of;
use node::ids::place_of;
use protocol::{AppendEntries, Body, Message, Role, ServerId};
use store::Store;

// Kept: node and me one by one, since a struct of both would be made anew from a loan of the node at each call.
// The append request to a receiver: the entry before next, the commit, and entry next if it is held.
pub fn append_request<S: Store + Drop>(node: &Node<S>, me: ServerId, receiver: ServerId) -> Message
    ensures { result ≡ append_request me (server_of S.Store node.now) receiver }
{
    let previous = node.progress[place_of(receiver)].next.saturating_sub(1);
    Message {
        from: me,
        to: receiver,
        term: node.store.term(),
        body: Body::AppendRequest(AppendEntries {
            previous,
            previous_term: node.tip(previous),
            commit: node.commit,
            entry: node.held(previous),
        }),
    }
}

fn got_yes<S: Store + Drop>(node: &mut Node<S>, server: ServerId, agreed: u16)
    ensures { Goes S.Store node.old (got_yes server agreed) node.new }
{
    let progress = &mut node.progress[place_of(server)];
    progress.matched = progress.matched.max(agreed);
    progress.next = progress.next.max(progress.matched as u32 + 1);
}

fn got_no<S: Store + Drop>(node: &mut Node<S>, server: ServerId)
    ensures { Goes S.Store node.old (got_no server) node.new }
{
    let progress = &mut node.progress[place_of(server)];
    let lower = progress.next.saturating_sub(1);
    progress.next = lower.max(progress.matched as u32 + 1);
}

fn got_reply<S: Store + Drop>(node: &mut Node<S>, from: ServerId, agreed: Option<u16>)
    ensures { Goes S.Store node.old (got_reply from agreed) node.new }
{
    match agreed {
        Some(agreed) => got_yes(node, from, agreed),
        None => got_no(node, from),
    }
}

// How far a server is known to hold the log of the leader `me`.
fn known<S: Store + Drop>(node: &Node<S>, me: ServerId, server: ServerId) -> usize
    ensures { result ≡ known_of me (server_of S.Store node.now) server }
{
    if server == me {
        node.store.durable()
    } else {
        node.progress[place_of(server)].matched as usize
    }
}

fn two_hold<S: Store + Drop>(node: &Node<S>, me: ServerId, number: usize) -> bool
    ensures { result ≡ two_hold me (server_of S.Store node.now) number }
{
    two_of(ServerId::ALL.map(|server| number <= known(node, me, server)))
}

// Whether the entry that `i` others stand before is of the own term, and two servers hold it.
fn may_commit<S: Store + Drop>(node: &Node<S>, me: ServerId, i: u32) -> bool
    ensures { let s = server_of S.Store node.now in result ≡ (term_at s.log i == s.term && two_hold me s (suc i)) }
{
    node.term_at(i) == node.store.term() && two_hold(node, me, i as usize + 1)
}

// The largest number whose entry is of the own term and which two servers hold, or 0.
fn top_held<S: Store + Drop>(node: &Node<S>, me: ServerId) -> u32
    ensures { let s = server_of S.Store node.now in result ≡ top me s (length s.log) }
{
    (0..node.len())
        .rev()
        .find(|i| may_commit(node, me, *i))
        .map_or(0, |i| i + 1)
}

// Raises the leader's commit.
pub fn raise<S: Store + Drop>(node: &mut Node<S>, me: ServerId)
    ensures { Goes S.Store node.old (raises me) node.new }
{
    let number = top_held(node, me);
    node.commit = node.commit.max(number);
}

// A reply counts at a leader of its term.
pub fn hear_reply<S: Store + Drop>(node: &mut Node<S>, message: Message, agreed: Option<u16>)
    ensures { Goes S.Store node.old (hears_reply message.from message.to message.term agreed) node.new }
{
    if message.term == node.store.term() && node.role == Role::Leader {
        got_reply(node, message.from, agreed);
        raise(node, message.to);
    }
}

// Makes every entry durable.
pub fn sync_log<S: Store + Drop>(node: &mut Node<S>)
    ensures { Goes S.Store node.old syncs node.new }
{
    node.store.sync();
}
