// Undo replicas: the page holds the contents at the version.
ghost use Rattle.replicas.specs.Model.{version_of, contents_at};
ghost use Rattle.replicas.specs.Undos.{undo_model};
ghost use Rattle.replicas.specs.Undone.{undo-backs, undo-newest};

use crate::keeping::Keeping;
use crate::log_replica::LogReplica;
use crate::replica::Refusal;
use entries::WriteList;

// The contents at the version, and for each write that led there a record of the word that it replaced.
pub type UndoReplica<'a> = LogReplica<'a, AtVersion>;

// The page holds the contents at the version, and the records have the words that writes replaced.
pub struct AtVersion;

impl Keeping for AtVersion {
    ghost model = { λ r. undo_model r.page.now r.log };

    ghost shown = { λ m. contents_at m (version_of m) };

    ghost backs = { λ r. undo-backs r.page.now r.log };

    ghost shows = { λ r. undo-newest r.page.now r.log };

    fn word(replica: &LogReplica<AtVersion>, at: u32, item: usize) -> u64 {
        replica.log.oldest_word(at, item, replica.page[item])
    }

    fn take(replica: &mut LogReplica<AtVersion>, set: &WriteList) -> Result<u32, Refusal> {
        replica.log.exchange(replica.page, set)
    }

    fn forget(replica: &mut LogReplica<AtVersion>, to: u32) {
        replica.log.forget(to);
    }
}
