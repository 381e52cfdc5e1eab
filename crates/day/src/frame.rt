// The frame of a day with a book of any kind of entry.
use banks::Bank;
use book::{Book, Layout, Parts};
use entries::Kind;
use ledgers::Ledger;
use std::io;

// What a day does with a book of one kind of entry. A trait, since a bound such as `FnOnce(&mut Layout<K, L, B>)` cannot be
// stated yet.
pub(crate) trait Plan {
    // The kind of its entries.
    type Entry: Kind;

    // Lays in the opening values.
    fn lay_in<L: Ledger, B: Bank>(
        rt: &HostRuntime,
        layout: &mut Layout<Self::Entry, L, B>,
    ) -> io::Result<()>;

    // Makes use of the book.
    fn make_use<L: Ledger, B: Bank>(
        rt: &HostRuntime,
        book: &mut Book<Self::Entry, L, B>,
    ) -> io::Result<()>;
}

// Lays values into a new layout, uses the book that is opened, and gives the parts back however far that came.
pub(crate) fn day<P: Plan, L: Ledger, B: Bank>(
    rt: &HostRuntime,
    parts: Parts<L, B>,
) -> (Parts<L, B>, io::Result<()>) {
    let mut layout = Layout::<P::Entry, L, B>::new(parts);
    let laid = P::lay_in(rt, &mut layout);
    let mut book = layout.open();
    let told = laid.and_then(|()| P::make_use(rt, &mut book));
    (book.wind_up(), told)
}
