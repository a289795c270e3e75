// A list of commands, from the opening on.
ghost use Rattle.std.specs.Prelude.{IfOk};
ghost use Rattle.server.specs.Turns.{kind_of};
ghost use Rattle.cluster.specs.Meaning.{cluster_of};
ghost use Rattle.session.specs.Ran.{Ran};

use crate::making::make;
use cluster::Cluster;
use command::{Command, Told};
use machine::StateMachine;
use refusal::Refusal;
use std::alloc::{AllocError, Global};
use store::Store;

// Opens a cluster, makes every command's call in order, and tells the answers.
pub fn run_commands<S: Store + Drop, M: StateMachine + Drop>(
    heap: Global,
    first: (S, M),
    second: (S, M),
    third: (S, M),
    commands: &[Command],
) -> Result<(Cluster<S, M>, Vec<Result<Told, Refusal>>), AllocError>
    ensures { IfOk result (λ x. Ran (kind_of M.StateMachine) commands.now x.1.items (cluster_of x.0)) }
{
    let mut cluster = Cluster::open(heap, first, second, third)?;
    let mut answers = Vec::with_capacity(heap, commands.len())?;
    for command in commands {
        answers.push_reserved(make(&mut cluster, *command));
    }
    Ok((cluster, answers))
}
