// What a book's entries are made of: kinds of values with their words, write lists and item sets.
#![tactic(auto)]

pub mod examples;
pub mod items;
pub mod kinds;
pub mod lists;
pub mod values;
pub mod writes;

pub use items::ItemSet;
pub use kinds::Kind;
pub use lists::{ListFull, WriteList};
pub use values::stages::NoSuchStage;
pub use values::{Card, Count, Stage};
pub use writes::Write;
