// The tests of outputs that take the places of files: a kill and a power loss after each call, with each call refused in turn.
#![tactic(auto)]

#[cfg(test)]
mod tests;
