// Tests alone: concrete books in use, over variables.
#![tactic(auto)]

#[cfg(test)]
mod days;
#[cfg(test)]
mod tests;
