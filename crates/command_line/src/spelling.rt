ghost use Rattle.std.specs.Prelude.{◌≡◌, ◌||◌, IfOk, bytes_eq, codes};
ghost use Rattle.clap.specs.Walk.{texts};
ghost use Rattle.command_line.specs.Spellings.{has_ended, with_default_value, with_default_values};

use std::alloc::{AllocError, Global};

/// The words of a command line with a value at each option that has one: `--progress` alone is
/// `--progress=terminal`, `--hints` alone `--hints=always`, `--plan` alone `--plan=lines`, `--shards` alone `--shards=lines`, `--stats`
/// alone `--stats=text`, `--atomic` alone `--atomic=renamed`, and `--strict` alone `--strict=always`. `--explain` is `--explain=all` as the
/// last word. After the word `--` all are operands, and stay as they are.
pub fn with_default_values<'a>(alloc: Global, words: &[&'a str]) -> Result<Vec<&'a str>, AllocError>
    ensures { IfOk result (λ whole. texts whole.items ≡ with_default_values (texts words.now)) }
{
    let mut whole = Vec::new(alloc);
    let mut ended = false;
    let mut left = words.len();
    for word in words {
        left = left.saturating_sub(1);
        whole.push(with_default_value(ended, left == 0, word))?;
        ended = has_ended(ended, word);
    }
    Ok(whole)
}

// The word with its value, if it is an option that lacks it.
fn with_default_value<'a>(ended: bool, last: bool, word: &'a str) -> &'a str
    ensures { result.now ≡ with_default_value ended last word.entry.now }
{
    if !ended && word == "--progress" {
        "--progress=terminal"
    } else if !ended && word == "--hints" {
        "--hints=always"
    } else if !ended && word == "--plan" {
        "--plan=lines"
    } else if !ended && word == "--shards" {
        "--shards=lines"
    } else if !ended && word == "--stats" {
        "--stats=text"
    } else if !ended && word == "--atomic" {
        "--atomic=renamed"
    } else if !ended && word == "--strict" {
        "--strict=always"
    } else if !ended && last && word == "--explain" {
        "--explain=all"
    } else {
        word
    }
}

// Whether the options have ended with this word, or before.
fn has_ended(ended: bool, word: &str) -> bool
    ensures { result ≡ has_ended ended word.now }
{
    ended || word == "--"
}
