// Page replicas: the page holds the contents at the base.
ghost use Rattle.std.specs.Prelude.{refl};
ghost use Rattle.replicas.specs.Pages.{page_model, page-backs};

use crate::keeping::Keeping;
use crate::log_replica::LogReplica;
use crate::replica::Refusal;
use entries::WriteList;

// The contents at the base, and a record for each later write.
pub type PageReplica<'a> = LogReplica<'a, AtBase>;

// The page holds the contents at the base, and the records have the words that were written.
pub struct AtBase;

impl Keeping for AtBase {
    ghost model = { λ r. page_model r.page.now r.log };

    ghost shown = { λ m. m.contents };

    ghost backs = { λ r. page-backs r.page.now r.log };

    ghost shows = { λ r. refl };

    fn word(replica: &LogReplica<AtBase>, at: u32, item: usize) -> u64 {
        replica.log.newest_word(at, item, replica.page[item])
    }

    fn take(replica: &mut LogReplica<AtBase>, set: &WriteList) -> Result<u32, Refusal> {
        let items = replica.page.len();
        replica.log.append(set, items)
    }

    fn forget(replica: &mut LogReplica<AtBase>, to: u32) {
        let end = replica.log.lay(replica.page, to);
        replica.log.rebase(to, end);
    }
}
