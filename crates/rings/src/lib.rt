// Ring buffers over lent memory.
#![tactic(auto)]

pub mod ring;
