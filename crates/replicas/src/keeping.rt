// Of what version the page of a replica holds the contents, and what its log keeps for the others.
ghost use Rattle.std.specs.Prelude.{◌≡◌, ℕ, ◌<◌, true, List, length, slice_index};
ghost use Rattle.entries.specs.Lists.{writes};
ghost use Rattle.replicas.specs.declared.log_replica.LogReplica.{LogReplica};
ghost use Rattle.replicas.specs.Model.{ReplicaModel, contents_at, take_answer, after_take, after_forget};
ghost use Rattle.replicas.specs.Logs.{has_version, Backs};

use crate::log_replica::LogReplica;
use crate::replica::Refusal;
use entries::WriteList;

pub trait Keeping {
    // what a page and a log mean
    ghost model: { LogReplica Self → ReplicaModel };

    // the contents that the page holds
    ghost shown: { ReplicaModel → List ℕ };

    // The word of an item in the contents at a version.
    fn word(replica: &LogReplica<Self>, at: u32, item: usize) -> u64
        requires { item < length replica.now.page.now }
        ensures { result ≡ slice_index (contents_at (model replica.now) at) item };

    // Takes the set as that of the next version, which it answers.
    fn take(replica: &mut LogReplica<Self>, set: &WriteList) -> Result<u32, Refusal>
        ensures answer { result ≡ take_answer (model replica.old) (writes set.now) }
        ensures after { model replica.new ≡ after_take (writes set.now) (model replica.old) };

    // Makes a version that is kept the base.
    fn forget(replica: &mut LogReplica<Self>, to: u32)
        requires { has_version replica.old.log to ≡ true }
        ensures { model replica.new ≡ after_forget to (model replica.old) };

    // page and log tell the numbers
    ghost backs: { (r : LogReplica Self) → Backs (model r) r.page.now r.log };

    // and the page what it holds
    ghost shows: { (r : LogReplica Self) → r.page.now ≡ shown (model r) };
}
