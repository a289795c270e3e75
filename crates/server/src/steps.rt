// What a message or a call does to a node, its machine apart.
ghost use Rattle.std.specs.Prelude.{◌≡◌, ◌<◌, true, false, T, [], ◌∷◌, ◌++◌, length, IfOk, MatchResult};
ghost use Rattle.refusal.specs.declared.Refusal.TheVariants.{ServerDown};
ghost use Rattle.refusal.specs.Numbers.{told};
ghost use Rattle.protocol.specs.Elections.{caught_up};
ghost use Rattle.protocol.specs.Rules.{hears, replies, proposes, firms, openly, few_open, applies, applies_next, fails, restarts, standing_of};
ghost use Rattle.protocol.specs.Calls.{propose_answer, firm_answer, apply_answer, outage_answer, restart_answer};
ghost use Rattle.node.specs.Meaning.{server_of, Goes};
ghost use Rattle.server.specs.Answers.{told_proposed, kept_by, may_keep_at};

use crate::Proposed;
use node::Node;
use protocol::{Body, Message, Role, ServerId, Standing};
use record::Entry;
use refusal::Refusal;
use replication::leading::{hear_reply, raise, sync_log};
use replication::receiving::hear_append;
use sheet::Edit;
use store::{MAX_ENTRIES, Store};

// A message at its receiver: it takes the term if it is higher, and hears the message.
pub fn hear<S: Store + Drop>(node: &mut Node<S>, message: Message) -> Option<Message>
    ensures after { Goes S.Store node.old (λ s. hears (caught_up message.term s) message.from message.to message.term message.body) node.new }
    ensures says { result ≡ replies (caught_up message.term (server_of S.Store node.old)) message.from message.to message.term message.body }
{
    node.catch_up(message.term);
    match message.body {
        Body::VoteRequest(pair) => Some(node.hear_vote_request(message, pair)),
        Body::VoteReply(ok) => {
            node.hear_vote_reply(message, ok);
            None
        }
        Body::AppendRequest(append) => hear_append(node, message, append),
        Body::AppendReply(agreed) => {
            hear_reply(node, message, agreed);
            None
        }
    }
}

// Refuses at a server that is down.
pub(crate) fn running<S: Store + Drop>(node: &Node<S>) -> Result<(), Refusal>
    ensures { MatchResult result (λ _. node.now.up ≡ true) (λ refusal. (refusal ≡ ServerDown) × (node.now.up ≡ false)) }
{
    if !node.up {
        return Err(Refusal::ServerDown);
    }
    Ok(())
}

// A leader takes an entry of its term, volatile.
pub fn propose<S: Store + Drop>(node: &mut Node<S>, edit: Edit) -> Result<Proposed, Refusal>
    ensures says { told_proposed result ≡ propose_answer (server_of S.Store node.old) }
    ensures after { Goes S.Store node.old (proposes edit) node.new }
{
    // That the server is down is told before that it is no leader.
    running(node)?;
    if node.role != Role::Leader {
        return Err(Refusal::NotLeader);
    }
    let length = node.len();
    if length as usize >= MAX_ENTRIES {
        return Err(Refusal::LogFull);
    }
    let term = node.store.term();
    let _ = node.store.append(Entry { term, edit });
    Ok(Proposed {
        number: length + 1,
        term,
    })
}

// Syncs the store; a leader then raises its commit.
pub fn firm<S: Store + Drop>(node: &mut Node<S>, me: ServerId) -> Result<(), Refusal>
    ensures says { told result ≡ firm_answer (server_of S.Store node.old) }
    ensures after { Goes S.Store node.old (firms me) node.new }
{
    running(node)?;
    sync_log(node);
    if node.role == Role::Leader {
        raise(node, me);
    }
    Ok(())
}

// Whether the next entry may be applied openly, room apart.
fn openly<S: Store + Drop>(node: &Node<S>) -> bool
    ensures is { result ≡ openly (server_of S.Store node.now) }
    ensures few { T result → node.now.applied < 64 }
{
    0 < node.commit && (node.tip(node.commit) == node.store.term() && node.applied < node.len())
}

fn few_open<S: Store + Drop>(node: &Node<S>) -> bool
    ensures { result ≡ few_open (server_of S.Store node.now) }
{
    node.applied.saturating_sub(node.commit) < 16
}

// Whether the next entry may be applied, below commit or openly, or why not.
fn may_apply<S: Store + Drop>(node: &Node<S>) -> Result<(), Refusal>
    ensures says { told result ≡ apply_answer (server_of S.Store node.now) }
    ensures few { IfOk result (λ _. node.now.applied < 4294967295) }
{
    running(node)?;
    if node.applied < node.commit {
        return Ok(());
    }
    if !openly(node) {
        return Err(Refusal::NothingToApply);
    }
    if !few_open(node) {
        return Err(Refusal::TooManyOpen);
    }
    Ok(())
}

// Applies the next entry.
pub fn apply<S: Store + Drop>(node: &mut Node<S>) -> Result<(), Refusal>
    ensures says { told result ≡ apply_answer (server_of S.Store node.old) }
    ensures after { Goes S.Store node.old applies_next node.new }
{
    may_apply(node)?;
    node.applied += 1;
    Ok(())
}

// Stops the server, and tells how many entries are left. `wish` is how many volatile ones may stay.
pub fn stop<S: Store + Drop>(node: &mut Node<S>, wish: u32) -> Result<u32, Refusal>
    ensures says { told result ≡ outage_answer (server_of S.Store node.old) (kept_by result) }
    ensures after { Goes S.Store node.old (fails (kept_by result)) node.new }
    ensures may { may_keep_at (kept_by result) (server_of S.Store node.old) ≡ true }
{
    running(node)?;
    let kept = node.store.crash(wish as usize);
    node.up = false;
    node.role = Role::Follower;
    node.commit = 0;
    node.applied = 0;
    Ok(kept as u32)
}

pub fn restart<S: Store + Drop>(node: &mut Node<S>) -> Result<(), Refusal>
    ensures says { told result ≡ restart_answer (server_of S.Store node.old) }
    ensures after { Goes S.Store node.old restarts node.new }
{
    if node.up {
        return Err(Refusal::AlreadyUp);
    }
    node.up = true;
    Ok(())
}

// What the node tells of a number and a term.
// Kept: one by one, as `Server::standing` has them.
pub fn standing_of<S: Store + Drop>(node: &Node<S>, number: u32, term: u32) -> Standing
    ensures { result ≡ standing_of (server_of S.Store node.now) number term }
{
    let own = node.tip(number) == term;
    if number == 0 {
        Standing::Unknown
    } else if number <= node.commit {
        if own { Standing::Kept } else { Standing::Gone }
    } else if own && number <= node.len() {
        Standing::Open
    } else {
        Standing::Unknown
    }
}
