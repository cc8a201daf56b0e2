// The tests of what is below a network, and of what no run of the program shows: pieces, pipes, the
// words of commands, files, sources, sinks and the line of progress.
#![tactic(auto)]

#[cfg(test)]
mod tests;
