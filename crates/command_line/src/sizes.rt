// Sizes: numbers of bytes, as 64K.
ghost use Rattle.std.specs.Prelude.{◌≡◌, ◌≤◌, ◌++◌, IfOk, map, option_map, string_bytes};
ghost use Rattle.command_line.specs.Sizes.{after, next_place, place_after, plain, plain_attached, size_of, sized, unit_of, with_digit, with_digits, with_plain_size, with_plain_sizes};

use std::alloc::{AllocError, Global};

// The greatest value of `--bytes`.
const MOST_BYTES: usize = 268_435_456;

// The greatest value of `--block`.
const MOST_BLOCK: usize = 65_536;

// What a word of a command line may be, by the words before it.
#[derive(Clone, Copy, Drop)]
enum Place {
    // An option or an operand, or a value of another option.
    Plain,
    // The value of `-c`.
    Script,
    // The value of `--bytes`.
    Bytes,
    // The value of `--block`.
    Block,
    // An operand after `--`.
    Operand,
}

/// The words of a command line with a plain number in place of each size that `--bytes` or `--block` has: `--block=65536` for
/// `--block=64K`. The units are K, M and G, each 1,024 of the one before it, as capitals or not. A word that is no size stays as it is written,
/// and so does a size above the greatest number that the option takes. The value of `-c` stays, and so do the words after `--`.
pub fn with_plain_sizes(alloc: Global, words: &[String]) -> Result<Vec<String>, AllocError>
    ensures { IfOk result (λ whole. map (λ word. string_bytes word) whole.items
        ≡ with_plain_sizes (map (λ word. string_bytes word) words.now)) }
{
    let mut whole = Vec::new(alloc);
    let mut place = Place::Plain;
    for word in words {
        whole.push(with_plain_size(alloc, place, word.as_str())?)?;
        place = next_place(place, word.as_str());
    }
    Ok(whole)
}

// The word of this place with a plain number in place of a size.
fn with_plain_size(alloc: Global, place: Place, word: &str) -> Result<String, AllocError>
    ensures { IfOk result (λ text. string_bytes text ≡ with_plain_size place word.now) }
{
    match place {
        Place::Plain => plain_attached(alloc, word),
        Place::Bytes => plain(alloc, "", word, MOST_BYTES),
        Place::Block => plain(alloc, "", word, MOST_BLOCK),
        Place::Script | Place::Operand => String::from_str(alloc, word),
    }
}

// The word with a plain number in place of a size after `=`.
fn plain_attached(alloc: Global, word: &str) -> Result<String, AllocError>
    ensures { IfOk result (λ text. string_bytes text ≡ with_plain_size Place.Plain word.now) }
{
    match (after(word, "--bytes="), after(word, "--block=")) {
        (Some(bytes), _) => plain(alloc, "--bytes=", bytes, MOST_BYTES),
        (None, Some(block)) => plain(alloc, "--block=", block, MOST_BLOCK),
        (None, None) => String::from_str(alloc, word),
    }
}

// What comes after this text in a word that begins with it.
fn after<'a>(word: &'a str, start: &str) -> Option<&'a str>
    ensures { option_map (λ rest. rest.now) result ≡ after start.now word.now }
{
    word.strip_prefix(start)
}

// A text, and after it a value with a size as a plain number.
fn plain(alloc: Global, start: &str, value: &str, most: usize) -> Result<String, AllocError>
    requires { most ≤ 268435456 }
    ensures { IfOk result (λ text. string_bytes text ≡ start.now ++ plain most value.now) }
{
    match size_of(value.as_bytes(), most) {
        Some(size) => format!(in alloc; "{start}{size}"),
        None => format!(in alloc; "{start}{value}"),
    }
}

// The number of bytes that a text means as a size, if it is one from 1 to the greatest.
fn size_of(text: &[u8], most: usize) -> Option<usize>
    requires { most ≤ 268435456 }
    ensures { result ≡ size_of most text.now }
{
    let Some((letter, digits)) = text.split_last() else {
        return None;
    };
    sized(most, unit_of(*letter), number_of(digits, most))
}

// As many units as a number of bytes, if it is from 1 to the greatest.
fn sized(most: usize, unit: Option<usize>, number: Option<usize>) -> Option<usize>
    requires { most ≤ 268435456 }
    ensures { result ≡ sized most unit number }
{
    match (unit, number) {
        (Some(unit), Some(number)) => match number.checked_mul(unit) {
            Some(size) if 1 <= size && size <= most => Some(size),
            _ => None,
        },
        _ => None,
    }
}

// How many bytes a unit is.
fn unit_of(letter: u8) -> Option<usize>
    ensures { result ≡ unit_of letter }
{
    match letter {
        b'K' | b'k' => Some(1024),
        b'M' | b'm' => Some(1_048_576),
        b'G' | b'g' => Some(1_073_741_824),
        _ => None,
    }
}

// The number that digits mean, if it is at most the greatest.
fn number_of(digits: &[u8], most: usize) -> Option<usize>
    requires { most ≤ 268435456 }
    ensures { result ≡ with_digits most 0 digits.now }
{
    let mut number = 0;
    for digit in digits {
        let Some(longer) = with_digit(most, number, *digit) else {
            return None;
        };
        number = longer;
    }
    Some(number)
}

// The number with one digit more, if it is at most the greatest.
fn with_digit(most: usize, number: usize, digit: u8) -> Option<usize>
    requires { (most ≤ 268435456) × (number ≤ most) }
    ensures { result ≡ with_digit most number digit }
{
    if !digit.is_ascii_digit() {
        return None;
    }
    let longer = number
        .saturating_mul(10)
        .saturating_add(usize::from(digit.saturating_sub(b'0')));
    if longer <= most { Some(longer) } else { None }
}

// The place of the word that comes after this one.
fn next_place(place: Place, word: &str) -> Place
    ensures { result ≡ next_place place word.now }
{
    match place {
        Place::Operand => Place::Operand,
        Place::Script if word == "--" => Place::Operand,
        Place::Script => Place::Plain,
        Place::Plain | Place::Bytes | Place::Block => place_after(word),
    }
}

// The place after a word that is no value of `-c` and no operand after `--`.
fn place_after(word: &str) -> Place
    ensures { result ≡ place_after word.now }
{
    if word == "--" {
        Place::Operand
    } else if word == "-c" {
        Place::Script
    } else if word == "--bytes" {
        Place::Bytes
    } else if word == "--block" {
        Place::Block
    } else {
        Place::Plain
    }
}
