// Replicas side by side, one for each site.
#![tactic(auto)]

pub mod bank;
pub mod laws;
pub mod rows;
pub mod single;

pub use bank::Bank;
pub use rows::Beside;
pub use single::Alone;
