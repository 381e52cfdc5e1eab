// Certification: a list is numbered unless a later version conflicts with what its transaction read.
ghost use Rattle.std.specs.Prelude.{◌≡◌};
ghost use Rattle.entries.specs.Lists.{writes};
ghost use Rattle.entries.specs.Items.{flags_of};
ghost use Rattle.ledgers.specs.Filing.{file_answer, after_file};

use crate::ledger::{Ledger, LedgerRefusal};
use entries::{ItemSet, WriteList};

// Adds the list where no version above the snapshot wrote one of the items.
pub fn file<L: Ledger>(
    ledger: &mut L,
    snapshot: u32,
    items: &ItemSet,
    list: &WriteList,
) -> Result<u32, LedgerRefusal>
    ensures answer { result ≡ file_answer (L.means ledger.old) snapshot (flags_of items.now) (writes list.now) }
    ensures after { L.means ledger.new ≡ after_file snapshot (flags_of items.now) (writes list.now) (L.means ledger.old) }
{
    match ledger.newest(snapshot, items)? {
        Some(version) => Err(LedgerRefusal::Conflict(version)),
        None => ledger.add(list),
    }
}
