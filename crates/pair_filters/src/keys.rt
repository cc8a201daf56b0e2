ghost use Rattle.std.specs.Prelude.{◌≡◌, ◌≤◌, length};
ghost use Rattle.std.specs.List.{prefix_len};
ghost use Rattle.command_words.specs.Bytes.{is_blank_byte};
ghost use Rattle.commands.specs.Keys.{after_field, after_fields, is_no_blank, key as key_of};

use command_words::is_blank;

// The key of a line with this content: what follows this many fields, and then this many bytes.
pub(crate) fn key(skipped_fields: u64, skipped_bytes: u64, content: &[u8]) -> &[u8]
    ensures { result.now ≡ key_of skipped_fields skipped_bytes content.now }
{
    let rest = after_fields(skipped_fields, content);
    if skipped_bytes < rest.len() as u64 {
        &rest[skipped_bytes as usize..]
    } else {
        &rest[rest.len()..]
    }
}

// What follows the first n fields.
fn after_fields(n: u64, content: &[u8]) -> &[u8]
    ensures { result.now ≡ after_fields n content.now }
{
    let mut rest = content;
    let mut left = n;
    while left > 0 {
        if rest.is_empty() {
            return rest;
        }
        rest = after_field(rest);
        left -= 1;
    }
    rest
}

// What follows the first field.
fn after_field(bytes: &[u8]) -> &[u8]
    ensures { result.now ≡ after_field bytes.now }
{
    let rest = &bytes[blanks(bytes)..];
    &rest[word(rest)..]
}

// How many blanks come first.
fn blanks(bytes: &[u8]) -> usize
    ensures value { result ≡ prefix_len is_blank_byte bytes.now }
    ensures within { result ≤ length bytes.now }
{
    for i in 0..bytes.len() {
        if !is_blank(bytes[i]) {
            return i;
        }
    }
    bytes.len()
}

// How many bytes come before the first blank.
fn word(bytes: &[u8]) -> usize
    ensures value { result ≡ prefix_len is_no_blank bytes.now }
    ensures within { result ≤ length bytes.now }
{
    for i in 0..bytes.len() {
        if is_blank(bytes[i]) {
            return i;
        }
    }
    bytes.len()
}
