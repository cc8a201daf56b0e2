ghost use Rattle.std.specs.Prelude.{◌≡◌, ◌≤◌, ◌+◌, ◌++◌, ◌∷◌, [], ℕ, length, min, IfSome, IfOk};
ghost use Rattle.std.specs.List.{prefix_len, list_all};
ghost use Rattle.command_words.specs.inner.Refusals.{MeetsWords};
ghost use Rattle.tr_words.specs.Classes.{is_digit, is_lower};
ghost use Rattle.tr_words.specs.Strings.{string_max, number, is_octal, octal_digits, escaped, escape, single_at, found, class_at, equivalence_at, repeat_count, repeat_of, repeat_at, range_of, range_at, byte_at, first_at, elements};

use crate::class::{Class, class_named, is_from};
use crate::lists::begins;
use command_words::{ArgFault, BadWords, Sequence, Span, Word};
use machine::{NoMemory, prefix, skip};
use std::alloc::Global;

// The most bytes that a string may mean.
pub(crate) const STRING_MAX: usize = 65536;

// A byte, and how many bytes it is written in.
#[derive(Clone, Copy)]
pub(crate) struct Single {
    pub byte: u8,
    pub length: usize,
}

// An element of a string.
#[derive(Clone, Copy)]
pub(crate) enum Element {
    Byte(u8),
    // The bytes from the first to the last, which is no lower.
    Range(u8, u8),
    OfClass(Class),
    Equivalence(u8),
    // A byte, and how often it is meant: 0 for as often as needed.
    Repeat(u8, u32),
}

// The element at the beginning of a string, or none if it is refused, and how many bytes it is
// written in.
#[derive(Clone, Copy)]
pub(crate) struct Found {
    pub element: Option<Element>,
    pub length: usize,
}

// Whether a byte is an octal digit.
fn is_octal(byte: u8) -> bool
    ensures { result ≡ is_octal byte }
{
    is_from(b'0', b'7', byte)
}

// How many octal digits it begins with.
fn leading_octal(string: &[u8]) -> usize
    ensures value { result ≡ prefix_len is_octal string.now }
    ensures within { result ≤ length string.now }
{
    for (i, byte) in string.iter().enumerate() {
        if !is_octal(*byte) {
            return i;
        }
    }
    string.len()
}

// How many decimal digits it begins with.
fn leading_digits(string: &[u8]) -> usize
    ensures value { result ≡ prefix_len is_digit string.now }
    ensures within { result ≤ length string.now }
{
    for (i, byte) in string.iter().enumerate() {
        if !is_from(b'0', b'9', *byte) {
            return i;
        }
    }
    string.len()
}

// How many lower-case letters it begins with.
fn leading_letters(string: &[u8]) -> usize
    ensures value { result ≡ prefix_len is_lower string.now }
    ensures within { result ≤ length string.now }
{
    for (i, byte) in string.iter().enumerate() {
        if !is_from(b'a', b'z', *byte) {
            return i;
        }
    }
    string.len()
}

// The number that digits mean, or one more than `STRING_MAX` if it is greater.
fn number(radix: u32, digits: &[u8]) -> u32
    requires { (1 ≤ radix) × (radix ≤ 10) }
    ensures { result ≡ min (number radix digits.now) (string_max + 1) }
{
    let mut number = 0;
    for digit in digits {
        let more = radix * number + u32::from(digit.saturating_sub(b'0'));
        number = more.min(65537);
    }
    number
}

// The octal digits of one escape.
fn octal_digits(string: &[u8]) -> &[u8]
    ensures value { result.now ≡ octal_digits string.now }
    ensures small { number 8 result.now ≤ 255 }
{
    let three = prefix(string, 3);
    let digits = prefix(three, leading_octal(three));
    if number(8, digits) <= 255 {
        digits
    } else {
        prefix(digits, 2)
    }
}

// What a backslash and this byte mean, if it is no octal digit.
fn escaped(byte: u8) -> u8
    ensures { result ≡ escaped byte }
{
    match byte {
        b'a' => 7,
        b'b' => 8,
        b'f' => 12,
        b'n' => 10,
        b'r' => 13,
        b't' => 9,
        b'v' => 11,
        _ => byte,
    }
}

// The single element that a backslash begins, if `string` follows it.
fn escape(string: &[u8]) -> Single
    ensures value { result ≡ escape string.now }
    ensures within { (1 ≤ result.length) × (result.length ≤ length string.now + 1) }
{
    let [first, ..] = string else {
        return Single {
            byte: b'\\',
            length: 1,
        };
    };
    if !is_octal(*first) {
        return Single {
            byte: escaped(*first),
            length: 2,
        };
    }
    let digits = octal_digits(string);
    Single {
        byte: number(8, digits) as u8,
        length: digits.len() + 1,
    }
}

// The single element in front.
fn single_at(string: &[u8]) -> Option<Single>
    ensures value { result ≡ single_at string.now }
    ensures within { IfSome result (λ x. (1 ≤ x.length) × (x.length ≤ length string.now)) }
{
    match string {
        [] => None,
        [b'\\', rest @ ..] => Some(escape(rest)),
        [byte, ..] => Some(Single {
            byte: *byte,
            length: 1,
        }),
    }
}

// A class in front.
fn class_at(string: &[u8]) -> Option<Found>
    ensures value { result ≡ class_at string.now }
    ensures within { IfSome result (λ x. (1 ≤ x.length) × (x.length ≤ length string.now)) }
{
    if !begins(b"[:", string) {
        return None;
    }
    let rest = skip(string, 2);
    let length = leading_letters(rest);
    if !begins(b":]", skip(rest, length)) {
        return None;
    }
    Some(Found {
        element: class_named(prefix(rest, length)).map(Element::OfClass),
        length: length + 4,
    })
}

// An equivalence class in front.
fn equivalence_at(string: &[u8]) -> Option<Found>
    ensures value { result ≡ equivalence_at string.now }
    ensures within { IfSome result (λ x. (1 ≤ x.length) × (x.length ≤ length string.now)) }
{
    if !begins(b"[=", string) {
        return None;
    }
    let rest = skip(string, 2);
    let inner = single_at(rest)?;
    if !begins(b"=]", skip(rest, inner.length)) {
        return None;
    }
    Some(Found {
        element: Some(Element::Equivalence(inner.byte)),
        length: inner.length + 4,
    })
}

// Whether all of these are octal digits.
fn are_octal(digits: &[u8]) -> bool
    ensures { result ≡ list_all is_octal digits.now }
{
    digits.iter().all(|byte| is_octal(*byte))
}

// How often a repeat repeats its byte, 0 for as often as needed.
fn repeat_count(digits: &[u8]) -> Option<u32>
    ensures { result ≡ repeat_count digits.now }
{
    if !begins(b"0", digits) {
        return Some(number(10, digits));
    }
    if are_octal(digits) {
        Some(number(8, digits))
    } else {
        None
    }
}

// A repeat of this byte, after this many bytes, if digits and `]` follow.
fn repeat_of(byte: u8, before: usize, string: &[u8]) -> Option<Found>
    requires { before + length string.now ≤ usize.MAX }
    ensures value { result ≡ repeat_of byte before string.now }
    ensures within { IfSome result (λ x. (1 ≤ x.length) × (x.length ≤ before + length string.now)) }
{
    let count = leading_digits(string);
    if !begins(b"]", skip(string, count)) {
        return None;
    }
    let times = repeat_count(prefix(string, count));
    Some(Found {
        element: times.map(|times| Element::Repeat(byte, times)),
        length: before + count + 1,
    })
}

// A repeat in front.
fn repeat_at(string: &[u8]) -> Option<Found>
    ensures value { result ≡ repeat_at string.now }
    ensures within { IfSome result (λ x. (1 ≤ x.length) × (x.length ≤ length string.now)) }
{
    if !begins(b"[", string) {
        return None;
    }
    let rest = skip(string, 1);
    let inner = single_at(rest)?;
    if !begins(b"*", skip(rest, inner.length)) {
        return None;
    }
    let before = inner.length + 2;
    repeat_of(inner.byte, before, skip(string, before))
}

// A range of these bytes, unless it is reversed.
fn range_of(first: u8, last: u8) -> Option<Element>
    ensures { result ≡ range_of first last }
{
    if first <= last {
        Some(Element::Range(first, last))
    } else {
        None
    }
}

// A range in front.
fn range_at(string: &[u8]) -> Option<Found>
    ensures value { result ≡ range_at string.now }
    ensures within { IfSome result (λ x. (1 ≤ x.length) × (x.length ≤ length string.now)) }
{
    let first = single_at(string)?;
    if !begins(b"-", skip(string, first.length)) {
        return None;
    }
    let last = single_at(skip(string, first.length + 1))?;
    Some(Found {
        element: range_of(first.byte, last.byte),
        length: first.length + 1 + last.length,
    })
}

// A single element in front.
fn byte_at(string: &[u8]) -> Option<Found>
    ensures value { result ≡ byte_at string.now }
    ensures within { IfSome result (λ x. (1 ≤ x.length) × (x.length ≤ length string.now)) }
{
    let first = single_at(string)?;
    Some(Found {
        element: Some(Element::Byte(first.byte)),
        length: first.length,
    })
}

// The first that fits.
fn first_at(string: &[u8]) -> Option<Found>
    ensures value { result ≡ first_at string.now }
    ensures within { IfSome result (λ x. (1 ≤ x.length) × (x.length ≤ length string.now)) }
{
    if let Some(found) = class_at(string) {
        return Some(found);
    }
    if let Some(found) = equivalence_at(string) {
        return Some(found);
    }
    if let Some(found) = repeat_at(string) {
        return Some(found);
    }
    if let Some(found) = range_at(string) {
        return Some(found);
    }
    byte_at(string)
}

// One element more.
fn add(elements: &mut Vec<Element>, element: Element) -> Result<(), NoMemory>
    ensures { IfOk result (λ _. elements.new.items ≡ elements.old.items ++ element ∷ []) }
{
    elements.push(element)?;
    Ok(())
}

// The place of an element of a string, which is this long and in front of what is left of it.
fn place_in_front(string: &Word, left: &[u8], length: usize) -> Option<Span> {
    let start = string.bytes().len().saturating_sub(left.len());
    string.part(start, start.saturating_add(length))
}

// The place of the element with this number in a string, from 0.
pub(crate) fn place_of(string: &Word, number: usize) -> Option<Span> {
    let mut rest = string.bytes();
    for _ in 0..number {
        rest = skip(rest, first_at(rest)?.length);
    }
    place_in_front(string, rest, first_at(rest)?.length)
}

// The elements of a string.
pub(crate) fn elements(alloc: Global, string: &Word) -> Result<Sequence<Element>, BadWords>
    ensures { MeetsWords result (elements string.now) }
{
    let mut elements = Vec::new(alloc);
    let mut rest = string.bytes();
    while let Some(found) = first_at(rest) {
        let Some(element) = found.element else {
            let place = place_in_front(string, rest, found.length);
            return Err(BadWords::at(ArgFault::BadSet, place));
        };
        add(&mut elements, element)?;
        rest = skip(rest, found.length);
    }
    Ok(Sequence::from_vec(elements))
}
