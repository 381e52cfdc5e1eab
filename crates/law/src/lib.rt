// What every call of a book means, and the law that holds of every run.
#![tactic(auto)]

pub mod calls;
pub mod codes;
pub mod laws;

pub use calls::{Answer, Call};
pub use codes::Code;
