// Replicas of a book: page replicas and undo replicas over one record log.
#![tactic(auto)]

mod keeping;
pub mod laws;
mod log_replica;
mod logs;
pub mod pages;
mod records;
pub mod replica;
pub mod undos;

pub use log_replica::LogReplica;
pub use pages::{AtBase, PageReplica};
pub use records::Record;
pub use replica::{Refusal, Replica};
pub use undos::{AtVersion, UndoReplica};
