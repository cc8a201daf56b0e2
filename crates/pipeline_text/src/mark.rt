ghost use Rattle.std.specs.Prelude.{◌≡◌, ◌++◌, OnOk};
ghost use Rattle.pipeline_text.specs.Tokens.{goes_on, is_blank, is_digit, is_plain, byte_of};
ghost use Rattle.pipeline_text.specs.inner.Peeks.{byte_in};

use crate::moves::ends_word;
use machine::NoMemory;

// What a byte of a text is, once quoting is known. A joined line and a comment leave no mark.
#[derive(Clone, Copy)]
pub(crate) enum Mark {
    // An unquoted byte.
    Plain(u8),
    // A quoted byte.
    Quoted(u8),
    // A quote that is removed.
    Quote,
}

// Whether a word goes on with this mark.
pub(crate) fn goes_on(mark: Mark) -> bool
    ensures { result ≡ goes_on mark }
{
    match mark {
        Mark::Plain(byte) => !ends_word(byte),
        Mark::Quoted(_) => true,
        Mark::Quote => true,
    }
}

// Whether it is an unquoted blank.
pub(crate) fn is_blank(mark: Mark) -> bool
    ensures { result ≡ is_blank mark }
{
    match mark {
        Mark::Plain(byte) => byte == b' ' || byte == b'\t',
        Mark::Quoted(_) => false,
        Mark::Quote => false,
    }
}

// Whether it is an unquoted digit.
pub(crate) fn is_digit(mark: Mark) -> bool
    ensures { result ≡ is_digit mark }
{
    match mark {
        Mark::Plain(byte) => b'0' <= byte && byte <= b'9',
        Mark::Quoted(_) => false,
        Mark::Quote => false,
    }
}

// Whether it is an unquoted byte.
pub(crate) fn is_plain(mark: Mark) -> bool
    ensures { result ≡ is_plain mark }
{
    matches!(mark, Mark::Plain(_))
}

// The byte of a mark, and 0 at a quote.
pub(crate) fn byte_in(mark: Mark) -> u8
    ensures { result ≡ byte_in mark }
{
    match mark {
        Mark::Plain(byte) => byte,
        Mark::Quoted(byte) => byte,
        Mark::Quote => 0,
    }
}

// Adds the byte of a mark, if it has one.
pub(crate) fn push_mark(bytes: &mut Vec<u8>, mark: Mark) -> Result<(), NoMemory>
    ensures { OnOk result (bytes.new.items ≡ bytes.old.items ++ byte_of mark) }
{
    match mark {
        Mark::Plain(byte) => bytes.push(byte)?,
        Mark::Quoted(byte) => bytes.push(byte)?,
        Mark::Quote => {}
    }
    Ok(())
}
