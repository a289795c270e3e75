// Terms and elections at one server.
ghost use Rattle.std.specs.Prelude.{◌≡◌, ◌<◌, false};
ghost use Rattle.refusal.specs.Numbers.{told};
ghost use Rattle.protocol.specs.Elections.{taken, caught_up, stands as stood_for, campaigns, not_below, vote_request, may_vote, grants, votes_for, hears_vote_request, vote_reply, counts, two_of, wins, tallied, hears_vote_reply};
ghost use Rattle.node.specs.Meaning.{server_of, Goes, of3};
ghost use Rattle.node.specs.Campaigns.{stand_answer};

use crate::ids::{others_of, place_of};
use crate::{Node, Progress};
use protocol::{Body, Message, Role, ServerId};
use refusal::Refusal;
use store::Store;

// The highest term there is.
pub const LAST_TERM: u32 = 1_000_000;

// Whether a pair of last term and length is not below another, the term weighing first.
pub fn not_below(a: (u32, u32), b: (u32, u32)) -> bool
    ensures { result ≡ not_below a b }
{
    a >= b
}

// Whether a vote given so far leaves this candidate.
// Kept: a vote is a number, 0 for none, as the records of a store have it.
fn may_vote(vote: u16, candidate: ServerId) -> bool
    ensures { result ≡ may_vote vote candidate }
{
    vote == 0 || vote == u16::from(candidate)
}

// Whether two of the three servers say yes.
// Kept: each two by hand, since with `filter` and `count` a sync at a leader with a full log takes 1.7 times as long.
pub fn two_of(votes: [bool; 3]) -> bool
    ensures { result ≡ two_of (of3 false votes) }
{
    let [first, second, third] = votes;
    (first && second) || ((first && third) || (second && third))
}

impl<S: Store + Drop> Node<S> {
    fn take_term(&mut self, term: u32)
        ensures { Goes S.Store self.old (taken term) self.new }
    {
        self.store.set(term, 0);
        self.role = Role::Follower;
        self.applied = self.applied.min(self.commit);
    }

    // Takes a higher term.
    pub fn catch_up(&mut self, term: u32)
        ensures { Goes S.Store self.old (caught_up term) self.new }
    {
        if self.store.term() < term {
            self.take_term(term);
        }
    }

    fn stand(&mut self, me: ServerId, term: u32)
        requires store_value { (server_of S.Store self.old).term ≡ term }
        requires term_bound { term < LAST_TERM }
        ensures { Goes S.Store self.old (stood_for me) self.new }
    {
        self.store.set(term + 1, u16::from(me));
        self.role = Role::Candidate;
        self.voters = [false; 3];
        self.voters[place_of(me)] = true;
        self.applied = self.applied.min(self.commit);
    }

    fn vote_request(&self, me: ServerId, receiver: ServerId) -> Message
        ensures { result ≡ vote_request me (server_of S.Store self.now) receiver }
    {
        Message {
            from: me,
            to: receiver,
            term: self.store.term(),
            body: Body::VoteRequest(self.pair()),
        }
    }

    // Takes the next term and stands in it, with two vote requests.
    pub fn campaign(&mut self, me: ServerId) -> Result<(Message, Message), Refusal>
        ensures says { told result ≡ stand_answer me (server_of S.Store self.old) }
        ensures after { Goes S.Store self.old (campaigns me) self.new }
    {
        if !self.up {
            return Err(Refusal::ServerDown);
        }
        if self.role == Role::Leader {
            return Err(Refusal::IsLeader);
        }
        let term = self.store.term();
        if term >= LAST_TERM {
            return Err(Refusal::TermLimit);
        }
        self.stand(me, term);
        let (low, high) = others_of(me);
        Ok((self.vote_request(me, low), self.vote_request(me, high)))
    }

    fn grants(&self, from: ServerId, term: u32, pair: (u32, u32)) -> bool
        ensures { result ≡ grants (server_of S.Store self.now) from term pair }
    {
        term == self.store.term()
            && (may_vote(self.store.vote(), from) && not_below(pair, self.pair()))
    }

    fn vote_for(&mut self, candidate: ServerId)
        ensures { Goes S.Store self.old (votes_for candidate) self.new }
    {
        let term = self.store.term();
        self.store.set(term, u16::from(candidate));
    }

    // Answers a vote request; a yes is recorded as the vote.
    pub fn hear_vote_request(&mut self, message: Message, pair: (u32, u32)) -> Message
        ensures after { Goes S.Store self.old (λ s. hears_vote_request s message.from message.term pair) self.new }
        ensures says { result ≡ vote_reply (server_of S.Store self.old) message.from message.to message.term pair }
    {
        let yes = self.grants(message.from, message.term, pair);
        if yes {
            self.vote_for(message.from);
        }
        Message {
            from: message.to,
            to: message.from,
            term: self.store.term(),
            body: Body::VoteReply(yes),
        }
    }

    fn count(&mut self, voter: ServerId)
        ensures { Goes S.Store self.old (counts voter) self.new }
    {
        self.voters[place_of(voter)] = true;
    }

    fn win(&mut self)
        ensures { Goes S.Store self.old wins self.new }
    {
        let next = self.len() + 1;
        self.role = Role::Leader;
        self.progress = [Progress { next, matched: 0 }; 3];
    }

    // Counts a vote; with two it leads.
    fn tally(&mut self, from: ServerId)
        ensures { Goes S.Store self.old (tallied from) self.new }
    {
        self.count(from);
        if two_of(self.voters) {
            self.win();
        }
    }

    // Counts a yes of its own term, as a candidate.
    pub fn hear_vote_reply(&mut self, message: Message, ok: bool)
        ensures { Goes S.Store self.old (λ s. hears_vote_reply s message.from message.term ok) self.new }
    {
        if ok && (message.term == self.store.term() && self.role == Role::Candidate) {
            self.tally(message.from);
        }
    }
}
