// A layout, the book in use, and the parts that it gives back: each is moved into the next.
use slots::SlotTable;
use std::marker::PhantomData;

pub mod filing;
pub mod layouts;
pub mod replicating;
pub mod runs;
pub mod transactions;

// Ledger and replicas before use. Opening values are laid in here and nowhere else.
pub struct Layout<K, L, B> {
    ledger: L,
    bank: B,
    kind: PhantomData<K>,
}

// The book in use.
pub struct Book<K, L, B> {
    ledger: L,
    bank: B,
    slots: SlotTable,
    refusals: u32,
    kind: PhantomData<K>,
}

// What a wound-up book gives back, and what a layout is made from.
pub struct Parts<L, B> {
    pub ledger: L,
    pub bank: B,
}
