ghost use Rattle.std.specs.Prelude.{◌≡◌, ◌++◌, ◌∷◌, [], IfOk};
ghost use Rattle.machine.specs.Lines.{newline};

use crate::json_string::JsonName;
use machine::NoMemory;
use shards::Shards;
use std::alloc::Global;
use std::io::{self, Write};

/// The two scripts of shards for people: a line for each, which begins with its name.
pub fn shards_text(alloc: Global, shards: &Shards) -> Result<Vec<u8>, NoMemory> {
    let mut text = Vec::new(alloc);
    write_lines(&mut text, shards).map_err(|_| NoMemory)?;
    Ok(text)
}

/// One of the two scripts of shards, as a file holds it: with a newline after it (POSIX.1-2017 XBD 3.206, Line).
pub fn shards_part(alloc: Global, script: &[u8]) -> Result<Vec<u8>, NoMemory>
    ensures { IfOk result (λ text. text.items ≡ script.now ++ newline ∷ []) }
{
    let mut text = Vec::new(alloc);
    text.extend_from_slice(script)?;
    text.push(b'\n')?;
    Ok(text)
}

/// The two scripts of shards for programs: an object of JSON, on one line. Its members `map` and `combine` are strings. If a script has a
/// byte that is no part of a character of UTF-8, `map_bytes` or `combine_bytes` follows, with the numbers of all its bytes.
pub fn shards_json(alloc: Global, shards: &Shards) -> Result<Vec<u8>, NoMemory> {
    let mut text = Vec::new(alloc);
    write_object(&mut text, shards).map_err(|_| NoMemory)?;
    Ok(text)
}

// Writes the lines.
fn write_lines(text: &mut Vec<u8>, shards: &Shards) -> io::Result<()> {
    write_line(text, "map: ", shards.map.as_slice())?;
    write_line(text, "combine: ", shards.combine.as_slice())
}

// Writes a line with a script after these words.
fn write_line(text: &mut Vec<u8>, words: &str, script: &[u8]) -> io::Result<()> {
    write!(text, "{words}")?;
    text.write_all(script)?;
    writeln!(text)
}

// Writes the object.
fn write_object(text: &mut Vec<u8>, shards: &Shards) -> io::Result<()> {
    let map = JsonName {
        member: "map",
        name: shards.map.as_slice(),
    };
    let combine = JsonName {
        member: "combine",
        name: shards.combine.as_slice(),
    };
    writeln!(text, "{{{map},{combine}}}")
}
