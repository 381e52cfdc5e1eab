// The slots of a book's sites: each runs one transaction at a time.
#![tactic(auto)]

pub mod places;
pub mod sites;
pub mod slots;
pub mod tables;

pub use places::Place;
pub use slots::State;
pub use tables::SlotTable;
