// The calls that look at no slot: deliver, trim, restart, version, count.
ghost use Rattle.std.specs.Prelude.{◌≡◌, [], ◌∷◌};
ghost use Rattle.replicas.specs.Model.{used_of};
ghost use Rattle.law.specs.Letters.Letter.{delivers, trims, restarts, versions, counts};
ghost use Rattle.law.specs.Books.{replica_of, site_version, settled};
ghost use Rattle.law.specs.Calls.{behind, deliver_call, trim_call, restart_call, version_call, count_call};
ghost use Rattle.law.specs.Law.{KeepsLaw};
ghost use Rattle.book.specs.Answers.{answer_of};
ghost use Rattle.book.specs.Books.{book_of, outcome, call_of};
ghost use Rattle.book.specs.Entering.{version_in};

use super::Book;
use crate::answers::{Refused, answered};
use banks::Bank;
use entries::Kind;
use law::{Answer, Code};
use ledgers::Ledger;

impl<K: Kind, L: Ledger, B: Bank> Book<K, L, B> {
    // Delivers the set of the next version to the site.
    pub fn deliver(&mut self, site: u32) -> Answer<K::Value>
        ensures is { outcome (book_of L.Ledger.means B.Bank.means self.new) result ≡ deliver_call K.Kind.coding (book_of L.Ledger.means B.Bank.means self.old) site }
        ensures law { KeepsLaw K.Kind.coding (book_of L.Ledger.means B.Bank.means self.old) (call_of delivers site 0 0 K.Kind.coding.blank ∷ []) (result ∷ []) (book_of L.Ledger.means B.Bank.means self.new) }
    {
        answered::<K>(self.try_deliver(site as usize))
    }

    // Lets go of the ledger's sets up to a version that every site has; answers the new floor.
    pub fn trim(&mut self, to: u32) -> Answer<K::Value>
        ensures is { outcome (book_of L.Ledger.means B.Bank.means self.new) result ≡ trim_call K.Kind.coding (book_of L.Ledger.means B.Bank.means self.old) to }
        ensures law { KeepsLaw K.Kind.coding (book_of L.Ledger.means B.Bank.means self.old) (call_of trims 0 0 to K.Kind.coding.blank ∷ []) (result ∷ []) (book_of L.Ledger.means B.Bank.means self.new) }
    {
        answered::<K>(self.try_trim(to))
    }

    // Starts the site anew: its open transactions are lost, and it tells how many.
    pub fn restart(&mut self, site: u32) -> Answer<K::Value>
        ensures is { outcome (book_of L.Ledger.means B.Bank.means self.new) result ≡ restart_call K.Kind.coding (book_of L.Ledger.means B.Bank.means self.old) site }
        ensures law { KeepsLaw K.Kind.coding (book_of L.Ledger.means B.Bank.means self.old) (call_of restarts site 0 0 K.Kind.coding.blank ∷ []) (result ∷ []) (book_of L.Ledger.means B.Bank.means self.new) }
    {
        answered::<K>(self.try_restart(site as usize))
    }

    // Tells the version of the site.
    pub fn version(&self, site: u32) -> Answer<K::Value>
        ensures is { outcome (book_of L.Ledger.means B.Bank.means self.now) result ≡ version_call K.Kind.coding (book_of L.Ledger.means B.Bank.means self.now) site }
        ensures law { KeepsLaw K.Kind.coding (book_of L.Ledger.means B.Bank.means self.now) (call_of versions site 0 0 K.Kind.coding.blank ∷ []) (result ∷ []) (book_of L.Ledger.means B.Bank.means self.now) }
    {
        answered::<K>(self.known_version(site as usize).map(u64::from))
    }

    // Tells how many filings were turned away.
    pub fn count(&self) -> Answer<K::Value>
        ensures is { outcome (book_of L.Ledger.means B.Bank.means self.now) result ≡ count_call K.Kind.coding (book_of L.Ledger.means B.Bank.means self.now) }
        ensures law { KeepsLaw K.Kind.coding (book_of L.Ledger.means B.Bank.means self.now) (call_of counts 0 0 0 K.Kind.coding.blank ∷ []) (result ∷ []) (book_of L.Ledger.means B.Bank.means self.now) }
    {
        answered::<K>(Ok(u64::from(self.refusals)))
    }

    // The version of a site, or why there is none: a book has so many sites.
    pub(crate) fn known_version(&self, site: usize) -> Result<u32, Refused>
        ensures { result ≡ version_in (book_of L.Ledger.means B.Bank.means self.now) site }
    {
        self.bank.version(site).ok_or(Refused {
            code: Code::NoSuchSite,
            number: self.bank.sites() as u64,
        })
    }

    // The version of a site; 0 where there is no such site.
    pub(crate) fn version_at(&self, site: usize) -> u32
        ensures { result ≡ site_version (book_of L.Ledger.means B.Bank.means self.now) site }
    {
        self.bank.version(site).unwrap_or(0)
    }

    // The site's replica forgets what lies below the site's horizon.
    pub(crate) fn settle(&mut self, site: usize)
        ensures { book_of L.Ledger.means B.Bank.means self.new ≡ settled (book_of L.Ledger.means B.Bank.means self.old) site }
    {
        if let Some(version) = self.bank.version(site) {
            let to = self.slots.horizon(site, version);
            let _ = self.bank.forget(site, to);
        }
    }

    // How many records the site's replica keeps; 0 where there is no such site.
    fn used_at(&self, site: usize) -> usize
        ensures { result ≡ used_of (replica_of (book_of L.Ledger.means B.Bank.means self.now) site) }
    {
        self.bank.used(site).unwrap_or(0)
    }

    // The lowest site whose version is below this one.
    fn behind(&self, to: u32) -> Option<usize>
        ensures { result ≡ behind to 0 (book_of L.Ledger.means B.Bank.means self.now).replicas }
    {
        // a loop: of `find` over the sites the proof did not close
        for site in 0..self.bank.sites() {
            if self.version_at(site) < to {
                return Some(site);
            }
        }
        None
    }

    // The version that a delivery brings to the site.
    fn try_deliver(&mut self, site: usize) -> Result<u64, Refused>
        ensures { outcome (book_of L.Ledger.means B.Bank.means self.new) (answer_of K.Kind.coding result) ≡ deliver_call K.Kind.coding (book_of L.Ledger.means B.Bank.means self.old) site }
    {
        let version = self.known_version(site)?;
        if version >= self.ledger.head() {
            return Err(Refused {
                code: Code::NothingToDeliver,
                number: u64::from(version),
            });
        }
        let set = self.ledger.fetch(version + 1);
        match self.bank.take(site, &set) {
            Ok(version) => {
                self.settle(site);
                Ok(u64::from(version))
            }
            Err(_) => Err(Refused {
                code: Code::ReplicaFull,
                number: self.used_at(site) as u64,
            }),
        }
    }

    // The floor that a trim leaves.
    fn try_trim(&mut self, to: u32) -> Result<u64, Refused>
        ensures { outcome (book_of L.Ledger.means B.Bank.means self.new) (answer_of K.Kind.coding result) ≡ trim_call K.Kind.coding (book_of L.Ledger.means B.Bank.means self.old) to }
    {
        let head = self.ledger.head();
        if to > head {
            return Err(Refused {
                code: Code::AboveHead,
                number: u64::from(head),
            });
        }
        if let Some(site) = self.behind(to) {
            return Err(Refused {
                code: Code::SiteBehind,
                number: site as u64,
            });
        }
        self.ledger.trim(to);
        Ok(u64::from(self.ledger.floor()))
    }

    // How many transactions are lost when the site starts anew.
    fn try_restart(&mut self, site: usize) -> Result<u64, Refused>
        ensures { outcome (book_of L.Ledger.means B.Bank.means self.new) (answer_of K.Kind.coding result) ≡ restart_call K.Kind.coding (book_of L.Ledger.means B.Bank.means self.old) site }
    {
        self.known_version(site)?;
        let lost = self.slots.restart(site);
        self.settle(site);
        Ok(u64::from(lost))
    }
}
