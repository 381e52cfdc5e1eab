// The book in use: layouts, the eleven calls, runs.
#![tactic(auto)]

pub mod answers;
pub mod books;

pub use books::runs::{Served, serve};
pub use books::{Book, Layout, Parts};
