/// Why a filter needs its whole input.
#[derive(Clone, Copy, Debug, PartialEq, Eq)]
pub enum WholeCause {
    /// It counts bytes.
    Counts,
    /// It writes the name of its input.
    NamesInput,
    /// It joins lines.
    JoinsLines,
    /// It counts lines or bytes from the beginning.
    FromStart,
    /// What it writes of a run of equal lines depends on the length of the run.
    RunLengths,
    /// It squeezes what newlines become, or squeezes bytes and deletes newlines.
    Squeezes,
    /// It writes a header for each of several inputs.
    Headers,
}

/// A command that is not in the script. It is added after the commands that run on each part, or before those that run on the joined outputs.
#[derive(Clone, Copy, Debug, PartialEq, Eq)]
pub enum Addition {
    /// Keeps the newlines alone: `tr -cd '\n'`.
    KeepNewlines,
    /// Makes one byte of each word: `tr -cs '[:space:]' '[x*]'`.
    MarkWords,
    /// Squeezes runs of this byte: `tr -s`.
    Squeeze(u8),
}

/// How a filter's output for an input follows from its outputs for the parts of that input.
#[derive(Clone, Copy, Debug, PartialEq, Eq)]
pub enum Manner {
    /// Byte by byte: its outputs for the parts, one after another, wherever the input is cut.
    ByBytes,
    /// Line by line: the same, if the input is cut at ends of lines.
    ByLines,
    /// It gathers: its output for its outputs for the parts, if the input is cut at ends of lines.
    Gathers,
    /// It counts: as much in the input as in what the addition makes of it.
    Counts(Addition),
    /// It squeezes: its outputs for the parts, one after another, with runs of this byte squeezed, if the input is cut at ends of lines.
    Squeezes(u8),
    /// It skips first lines. So it runs on the joined outputs alone, and may do so after commands that make a line of each line.
    Skips,
    /// Not at all: it needs the whole input.
    Whole(WholeCause),
}
