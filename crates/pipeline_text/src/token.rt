ghost use Rattle.std.specs.Prelude.{◌≡◌};
ghost use Rattle.pipeline_text.specs.Tokens.{operator, is_some_of, redirects};
ghost use Rattle.pipeline_text.specs.Grammar.{descriptor, is_background};
ghost use Rattle.pipeline_text.specs.inner.Takes.{control_of, redirection_in, is_newline_token, is_bang, is_pipe};

use command_words::{Word, same_bytes};

// What a word looks like before its quotes are removed.
#[derive(Clone, Copy, PartialEq, Eq)]
pub(crate) enum Look {
    // Nothing in it is quoted.
    Unquoted,
    // It begins with an unquoted name and `=`.
    Assignment,
    // Something in it is quoted.
    PartlyQuoted,
}

/// What ends a command.
#[derive(Clone, Copy, Debug, PartialEq, Eq)]
pub enum Control {
    /// `|`
    Pipe,
    /// `&`
    Background,
    /// `;`
    Semicolon,
    Newline,
}

// What a redirection does with its file.
#[derive(Clone, Copy)]
pub(crate) enum Redirection {
    // `<`
    Input,
    // `>` or `>|`
    Output,
    // `>>`
    Append,
}

#[derive(Clone, Copy)]
pub(crate) enum Operator {
    Control(Control),
    Redirection(Redirection),
}

// A token of a script.
#[derive(Drop)]
pub(crate) enum Token {
    // A word without its quotes.
    Word(Word, Look),
    // A descriptor's number, directly before a redirection.
    Number(Word),
    Operator(Operator),
}

// Whether there is a byte, and it is this one.
fn is(next: Option<u8>, byte: u8) -> bool
    ensures { result ≡ is_some_of byte next }
{
    match next {
        Some(other) => other == byte,
        None => false,
    }
}

// Whether a redirection begins with the next byte.
pub(crate) fn redirects(next: Option<u8>) -> bool
    ensures { result ≡ redirects next }
{
    is(next, b'<') || is(next, b'>')
}

// The longest operator that begins with a byte, before the next one, and whether it takes that too.
pub(crate) fn recognized(byte: u8, next: Option<u8>) -> Option<(Operator, bool)>
    ensures { result ≡ operator byte next }
{
    let (operator, both) = match byte {
        b'\n' => (Operator::Control(Control::Newline), false),
        b'|' if !is(next, b'|') => (Operator::Control(Control::Pipe), false),
        b'&' if !is(next, b'&') => (Operator::Control(Control::Background), false),
        b';' if !is(next, b';') => (Operator::Control(Control::Semicolon), false),
        b'<' if !is(next, b'<') && !is(next, b'&') && !is(next, b'>') => {
            (Operator::Redirection(Redirection::Input), false)
        }
        b'>' if is(next, b'>') => (Operator::Redirection(Redirection::Append), true),
        b'>' if is(next, b'|') => (Operator::Redirection(Redirection::Output), true),
        b'>' if !is(next, b'&') => (Operator::Redirection(Redirection::Output), false),
        _ => return None,
    };
    Some((operator, both))
}

// The control operator that a token is.
pub(crate) fn control_of(token: &Token) -> Option<Control>
    ensures { result ≡ control_of token.now }
{
    match token {
        Token::Operator(Operator::Control(control)) => Some(*control),
        _ => None,
    }
}

// The redirection that a token is.
pub(crate) fn redirection_of(token: Option<Token>) -> Option<Redirection>
    ensures { result ≡ redirection_in token }
{
    match token {
        Some(Token::Operator(Operator::Redirection(redirection))) => Some(redirection),
        _ => None,
    }
}

// Whether a token is a newline.
pub(crate) fn is_newline(token: &Token) -> bool
    ensures { result ≡ is_newline_token token.now }
{
    matches!(token, Token::Operator(Operator::Control(Control::Newline)))
}

// Whether a token is an unquoted `!`.
pub(crate) fn is_bang(token: &Token) -> bool
    ensures { result ≡ is_bang token.now }
{
    match token {
        Token::Word(name, Look::Unquoted) => same_bytes(name.bytes(), b"!"),
        _ => false,
    }
}

// The number of the descriptor that a redirection is of.
pub(crate) fn descriptor(redirection: Redirection) -> &'static [u8]
    ensures { result.now ≡ descriptor redirection }
{
    match redirection {
        Redirection::Input => b"0",
        Redirection::Output => b"1",
        Redirection::Append => b"1",
    }
}

// The number of the descriptor of a redirection that begins with this byte, in the one way that it
// may be written.
pub(crate) fn number_before(next: Option<u8>) -> &'static [u8] {
    match next {
        Some(b'<') => b"0",
        _ => b"1",
    }
}

// Whether it is `|`.
pub(crate) fn is_pipe(control: Control) -> bool
    ensures { result ≡ is_pipe control }
{
    control == Control::Pipe
}

// Whether it is `&`.
pub(crate) fn is_background(control: Control) -> bool
    ensures { result ≡ is_background control }
{
    control == Control::Background
}
