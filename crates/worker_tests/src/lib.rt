// The tests of runs on workers: what no contract says of threads, and tables of scripts with their files.
#![tactic(auto)]

#[cfg(test)]
mod tests;
