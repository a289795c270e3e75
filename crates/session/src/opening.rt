// A cluster as it opens.
ghost use Rattle.std.specs.Prelude.{◌≡◌, [], ◌∷◌, IfOk};
ghost use Rattle.protocol.specs.State.{opening};
ghost use Rattle.server.specs.Turns.{kind_of};
ghost use Rattle.cluster.specs.Meaning.{cluster_of};
ghost use Rattle.store.specs.Stores.{cleared};

use cluster::Cluster;
use machine::Opens;
use std::alloc::{AllocError, Global};
use store::OpensEmpty;

// An empty store, and a machine at its opening state.
pub fn parts<S: OpensEmpty + Drop, M: Opens + Drop>(heap: Global) -> Result<(S, M), AllocError>
    ensures store { IfOk result (λ x. S.meaning x.0 ≡ cleared) }
    ensures machine { IfOk result (λ x. M.states x.1 ≡ M.opening ∷ []) }
{
    let machine = M::open(heap)?;
    Ok((S::open_empty(heap)?, machine))
}

// A cluster of three empty stores and three machines at their opening state.
pub fn open<S: OpensEmpty + Drop, M: Opens + Drop>(
    heap: Global,
) -> Result<Cluster<S, M>, AllocError>
    ensures { IfOk result (λ c. cluster_of c ≡ opening (kind_of M.StateMachine)) }
{
    Cluster::open(heap, parts(heap)?, parts(heap)?, parts(heap)?)
}
