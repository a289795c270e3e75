// A line of text, answered by a line.
ghost use Rattle.server.specs.Turns.{kind_of};
ghost use Rattle.cluster.specs.Meaning.{cluster_of};
ghost use Rattle.session.specs.Answered.{Heeds, Answered};

use crate::making::make;
use cluster::Cluster;
use command::{Line, Problem, Reply, Told, command_in};
use machine::StateMachine;
use protocol::ServerId;
use store::Store;

// Makes the call that a line stands for, and tells what it found.
fn heed<S: Store + Drop, M: StateMachine + Drop>(
    cluster: &mut Cluster<S, M>,
    line: &[u8],
) -> Result<Told, Problem>
    ensures { Heeds (kind_of M.StateMachine) line.now result (cluster_of cluster.old) (cluster_of cluster.new) }
{
    let command = command_in(line).ok_or(Problem::NoCommand)?;
    Ok(make(cluster, command)?)
}

// Makes the call that a line stands for, and writes the line that tells of it.
pub fn answer_line<S: Store + Drop, M: StateMachine + Drop>(
    cluster: &mut Cluster<S, M>,
    line: &[u8],
    out: &mut Line,
)
    ensures { Answered (kind_of M.StateMachine) line.now out.new.bytes.items (cluster_of cluster.old) (cluster_of cluster.new) }
{
    let answer = heed(cluster, line);
    let servers = [
        cluster.status(ServerId::One),
        cluster.status(ServerId::Two),
        cluster.status(ServerId::Three),
    ];
    out.write(&Reply::to(answer, servers));
}
