// The examples of docs/CALLING.md as they are there, and a call of each.
#![tactic(auto)]

#[cfg(test)]
mod tests;
