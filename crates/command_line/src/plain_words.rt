// The help, and the errors of the library that reads the command line, in words that can be typed.
use crate::words::bytes_of_text;
use run_types::Escaped;
use std::alloc::Global;
use std::io::{self, Write};

// What a tip of the library begins with that helps nobody here: no option is the name of a script.
const VAIN_TIP: &str = "  tip: to pass '";

// What a line begins with that says that the value of an option is refused.
const REFUSED_VALUE: &str = "error: invalid value '";

// What a line begins with that names an option, and no word that was given.
const NAMED_OPTION: &str = "error: the argument '--";

// The options that take a number, as the library writes them, and which number they take.
const NUMBERS: [(&str, &str); 6] = [
    ("workers <N>", "a number from 1 to 16"),
    ("capacity <N>", "a number from 1 to 4096"),
    ("max-capacity <M>", "a number from 1 to 4096"),
    (
        "bytes <B>",
        "a number of bytes from 1 to 268435456, as 65536, 64K or 1M",
    ),
    (
        "block <N>",
        "a number of bytes from 1 to 65536, as 4096 or 64K",
    ),
    ("turns <N>", "a number from 1 to 1000000"),
];

// The options whose value may be left out, as the library writes them, and as they are typed.
const OPTIONAL: [(&str, &str); 8] = [
    ("--plan <FORM>", "--plan[=FORM]"),
    ("--shards <FORM>", "--shards[=FORM]"),
    ("--stats <FORM>", "--stats[=FORM]"),
    ("--progress <WHEN>", "--progress[=WHEN]"),
    ("--hints <WHEN>", "--hints[=WHEN]"),
    ("--atomic <HOW>", "--atomic[=HOW]"),
    ("--strict <WHEN>", "--strict[=WHEN]"),
    ("--explain <CODE>", "--explain [CODE]"),
];

/// Writes the help. An option whose value may be left out is as it is typed, `--plan[=FORM]`.
pub fn write_help<W: Write>(alloc: Global, help: &clap::Error, to: &mut W) -> io::Result<()> {
    let text = format!(in alloc; "{help}")?;
    for line in text.as_str().lines() {
        write_typed(alloc, line, to)?;
    }
    Ok(())
}

/// Writes the lines of an error of the library that reads the command line. It leaves out a tip that is in vain, and the empty line after
/// that. It says which numbers an option takes, in place of why its value is none of them.
pub fn write_words_error<W: Write>(
    alloc: Global,
    error: &clap::Error,
    to: &mut W,
) -> io::Result<()> {
    let text = format!(in alloc; "{error}")?;
    let mut after_empty = false;
    for line in text.as_str().lines() {
        if line.starts_with(VAIN_TIP) || after_empty && line.is_empty() {
            continue;
        }
        write_error_line(alloc, line, to)?;
        after_empty = line.is_empty();
    }
    Ok(())
}

// Writes a line of an error.
fn write_error_line<W: Write>(alloc: Global, line: &str, to: &mut W) -> io::Result<()> {
    if line.starts_with(NAMED_OPTION) {
        return write_typed(alloc, line, to);
    }
    match numbers_for(line) {
        Some((refused, numbers)) => {
            write_text(alloc, refused, to)?;
            writeln!(to, "': {numbers}")
        }
        None => write_line(alloc, line, to),
    }
}

// What a line says up to the quote after an option that takes a number, and which numbers that takes. A quote in the value that is refused
// comes before those of the library, so the last ones are looked for.
fn numbers_for(line: &str) -> Option<(&str, &'static str)> {
    if !line.starts_with(REFUSED_VALUE) {
        return None;
    }
    let (refused, _) = line.rsplit_once("': ")?;
    let (_, option) = refused.rsplit_once("' for '--")?;
    for (name, numbers) in NUMBERS {
        if option == name {
            return Some((refused, numbers));
        }
    }
    None
}

// Writes a line with an option as it is typed.
fn write_typed<W: Write>(alloc: Global, line: &str, to: &mut W) -> io::Result<()> {
    for (named, typed) in OPTIONAL {
        if let Some((before, after)) = line.split_once(named) {
            write_text(alloc, before, to)?;
            write!(to, "{typed}")?;
            return write_line(alloc, after, to);
        }
    }
    write_line(alloc, line, to)
}

// Writes a line of the bytes that a text means.
fn write_line<W: Write>(alloc: Global, text: &str, to: &mut W) -> io::Result<()> {
    write_text(alloc, text, to)?;
    writeln!(to)
}

// Writes the bytes that a text means.
fn write_text<W: Write>(alloc: Global, text: &str, to: &mut W) -> io::Result<()> {
    let bytes = bytes_of_text(alloc, text)?;
    write!(to, "{}", Escaped(bytes.as_slice()))
}
