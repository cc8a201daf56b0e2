ghost use Rattle.std.specs.Prelude.{◌≡◌};
ghost use Rattle.std.specs.List.{find};
ghost use Rattle.tr_words.specs.Classes.{is_in, name_of, all_classes, class_named};
ghost use Rattle.command_words.specs.Bytes.{is_from};
ghost use Rattle.command_words.specs.Texts.{same_bytes};

use command_words::same_bytes;
use machine::split_first;

// A class of bytes.
#[derive(Clone, Copy, Debug, PartialEq, Eq)]
pub(crate) enum Class {
    Alnum,
    Alpha,
    Blank,
    Cntrl,
    Digit,
    Graph,
    Lower,
    Print,
    Punct,
    Space,
    Upper,
    Xdigit,
}

// Whether a byte is one of those from `low` to `high`.
pub(crate) fn is_from(low: u8, high: u8, byte: u8) -> bool
    ensures { result ≡ is_from low high byte }
{
    low <= byte && byte <= high
}

// Whether a byte is in a class.
pub(crate) fn is_in(class: Class, byte: u8) -> bool
    ensures { result ≡ is_in class byte }
{
    match class {
        Class::Upper => is_from(b'A', b'Z', byte),
        Class::Lower => is_from(b'a', b'z', byte),
        Class::Digit => is_from(b'0', b'9', byte),
        Class::Alpha => is_from(b'A', b'Z', byte) || is_from(b'a', b'z', byte),
        Class::Alnum => {
            is_from(b'A', b'Z', byte) || is_from(b'a', b'z', byte) || is_from(b'0', b'9', byte)
        },
        Class::Xdigit => {
            is_from(b'0', b'9', byte) || is_from(b'A', b'F', byte) || is_from(b'a', b'f', byte)
        }
        Class::Space => is_from(9, 13, byte) || byte == b' ',
        Class::Blank => byte == b'\t' || byte == b' ',
        Class::Cntrl => is_from(0, 31, byte) || byte == 127,
        Class::Punct => {
            is_from(b'!', b'/', byte)
                || is_from(b':', b'@', byte)
                || is_from(b'[', b'`', byte)
                || is_from(b'{', b'~', byte)
        }
        Class::Graph => is_from(b'!', b'~', byte),
        Class::Print => is_from(b' ', b'~', byte),
    }
}

// Its name.
fn name_of(class: Class) -> &'static [u8]
    ensures { result.now ≡ name_of class }
{
    match class {
        Class::Alnum => b"alnum",
        Class::Alpha => b"alpha",
        Class::Blank => b"blank",
        Class::Cntrl => b"cntrl",
        Class::Digit => b"digit",
        Class::Graph => b"graph",
        Class::Lower => b"lower",
        Class::Print => b"print",
        Class::Punct => b"punct",
        Class::Space => b"space",
        Class::Upper => b"upper",
        Class::Xdigit => b"xdigit",
    }
}

// All of them.
fn all_classes() -> [Class; 12]
    ensures { result ≡ all_classes }
{
    [
        Class::Alnum,
        Class::Alpha,
        Class::Blank,
        Class::Cntrl,
        Class::Digit,
        Class::Graph,
        Class::Lower,
        Class::Print,
        Class::Punct,
        Class::Space,
        Class::Upper,
        Class::Xdigit,
    ]
}

// The first of these classes that has this name.
fn named_among(classes: &[Class], name: &[u8]) -> Option<Class>
    ensures { result ≡ find (λ class. same_bytes name.now (name_of class)) classes.now }
{
    let mut rest = classes;
    while let Some((class, after)) = split_first(rest) {
        if same_bytes(name, name_of(*class)) {
            return Some(*class);
        }
        rest = after;
    }
    None
}

// The class of this name, if there is one.
pub(crate) fn class_named(name: &[u8]) -> Option<Class>
    ensures { result ≡ class_named name.now }
{
    named_among(&all_classes(), name)
}
