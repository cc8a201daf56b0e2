ghost use Rattle.std.specs.Prelude.{◌≡◌, ◌%◌, IfOk, string_bytes};
ghost use Rattle.command_line.specs.Words.{bytes_of_text, character_of, text_of_bytes};

use std::alloc::{AllocError, Global};

/// The text that means these bytes, with a character for each. A byte that is no printing character
/// of ASCII is none in the text either.
pub fn text_of_bytes(alloc: Global, bytes: &[u8]) -> Result<String, AllocError>
    ensures text { IfOk result (λ text. string_bytes text ≡ text_of_bytes bytes.now) }
    ensures back { IfOk result (λ text. bytes_of_text (string_bytes text) ≡ bytes.now) }
{
    bytes.iter().map(|byte| character_of(*byte)).collect(alloc)
}

/// The bytes that a text means: the numbers of its characters, each modulo 256.
pub fn bytes_of_text(alloc: Global, text: &str) -> Result<Vec<u8>, AllocError>
    ensures { IfOk result (λ bytes. bytes.items ≡ bytes_of_text text.now) }
{
    text.chars().map(byte_of).collect(alloc)
}

// The character that means a byte.
fn character_of(byte: u8) -> char
    ensures { result ≡ character_of byte }
{
    match byte {
        b' '..=b'~' => char::from(byte),
        _ => char::from_u32(256 + u32::from(byte)).unwrap_or('?'),
    }
}

// The byte that a character means.
fn byte_of(character: char) -> u8
    ensures { result ≡ character % 256 }
{
    (u32::from(character) % 256) as u8
}
