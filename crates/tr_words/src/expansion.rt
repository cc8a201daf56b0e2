ghost use Rattle.std.specs.Prelude.{◌≡◌, ◌≤◌, ◌+◌, ◌++◌, ◌∷◌, [], ◌==◌, ◌&&◌, ℕ, IfOk, count_by, if◌then◌else◌};
ghost use Rattle.std.specs.List.{list_any, repeat};
ghost use Rattle.command_words.specs.inner.Refusals.{MeetsWords};
ghost use Rattle.tr_words.specs.Classes.{members};
ghost use Rattle.tr_words.specs.declared.class.Class.{Class};
ghost use Rattle.tr_words.specs.Expansions.{range, written, class_from, expanded, is_repeat, is_equivalence, is_open, as_member, is_other, are_paired, may_be_second};

use crate::class::{Class, is_in};
use crate::element::{Element, STRING_MAX, place_of};
use command_words::{ArgFault, BadWords, Sequence, Word};
use machine::{NoMemory, split_first};
use std::alloc::Global;

// What the elements of a string mean: their bytes, and each class with the place at which its bytes
// begin.
#[derive(Drop)]
pub(crate) struct Expansion {
    pub bytes: Sequence<u8>,
    pub classes: Sequence<(usize, Class)>,
}

// One byte more.
pub(crate) fn add_byte(bytes: &mut Vec<u8>, byte: u8) -> Result<(), NoMemory>
    ensures { IfOk result (λ _. bytes.new.items ≡ bytes.old.items ++ byte ∷ []) }
{
    bytes.push(byte)?;
    Ok(())
}

// One byte more, if it is wanted.
pub(crate) fn add_if(bytes: &mut Vec<u8>, wanted: bool, byte: u8) -> Result<(), NoMemory>
    ensures { IfOk result
        (λ _. bytes.new.items ≡ bytes.old.items ++ (if wanted then byte ∷ [] else [])) }
{
    if wanted {
        bytes.push(byte)?;
    }
    Ok(())
}

// The bytes of a range more.
fn add_range(bytes: &mut Vec<u8>, first: u8, last: u8) -> Result<(), NoMemory>
    ensures { IfOk result (λ _. bytes.new.items ≡ bytes.old.items ++ range first last) }
{
    for byte in first..=last {
        add_byte(bytes, byte)?;
    }
    Ok(())
}

// The bytes of a class more.
fn add_class(bytes: &mut Vec<u8>, class: Class) -> Result<(), NoMemory>
    ensures { IfOk result (λ _. bytes.new.items ≡ bytes.old.items ++ members class) }
{
    for index in 0..256usize {
        let byte = index as u8;
        add_if(bytes, is_in(class, byte), byte)?;
    }
    Ok(())
}

// Adds `count` copies of a byte.
fn add_copies(bytes: &mut Vec<u8>, byte: u8, count: usize) -> Result<(), NoMemory>
    ensures { IfOk result (λ _. bytes.new.items ≡ bytes.old.items ++ repeat count (byte ∷ [])) }
{
    for _ in 0..count {
        add_byte(bytes, byte)?;
    }
    Ok(())
}

// Adds the bytes of an element, if a repeat for as often as needed is needed this often.
fn add(bytes: &mut Vec<u8>, needed: usize, element: Element) -> Result<(), NoMemory>
    ensures { IfOk result (λ _. bytes.new.items ≡ bytes.old.items ++ written needed element) }
{
    match element {
        Element::Byte(byte) => add_byte(bytes, byte),
        Element::Range(first, last) => add_range(bytes, first, last),
        Element::OfClass(class) => add_class(bytes, class),
        Element::Equivalence(byte) => add_byte(bytes, byte),
        Element::Repeat(byte, 0) => add_copies(bytes, byte, needed),
        Element::Repeat(byte, count) => add_copies(bytes, byte, count as usize),
    }
}

// Adds a class, if the element is one.
fn add_class_from(
    classes: &mut Vec<(usize, Class)>,
    place: usize,
    element: Element,
) -> Result<(), NoMemory>
    ensures { IfOk result (λ _. classes.new.items ≡ classes.old.items ++ class_from place element) }
{
    if let Element::OfClass(class) = element {
        classes.push((place, class))?;
    }
    Ok(())
}

// What the elements of a string mean, if a repeat for as often as needed is needed this often.
pub(crate) fn expanded(
    alloc: Global,
    needed: usize,
    elements: &[Element],
    string: &Word,
) -> Result<Expansion, BadWords>
    ensures { MeetsWords result (expanded needed elements.now) }
{
    let mut bytes = Vec::new(alloc);
    let mut classes = Vec::new(alloc);
    let mut rest = elements;
    'elements: while let Some((element, after)) = split_first(rest) {
        add_class_from(&mut classes, bytes.len(), *element)?;
        add(&mut bytes, needed, *element)?;
        if bytes.len() > STRING_MAX {
            let place = place_of(string, elements.len().saturating_sub(rest.len()));
            return Err(BadWords::at(ArgFault::BadSet, place));
        }
        rest = after;
    }
    Ok(Expansion {
        bytes: Sequence::from_vec(bytes),
        classes: Sequence::from_vec(classes),
    })
}

// Whether it is a repeat.
fn is_repeat(element: Element) -> bool
    ensures { result ≡ is_repeat element }
{
    matches!(element, Element::Repeat(_, _))
}

// Whether it is an equivalence class.
fn is_equivalence(element: Element) -> bool
    ensures { result ≡ is_equivalence element }
{
    matches!(element, Element::Equivalence(_))
}

// Whether it is a repeat that is meant as often as needed.
fn is_open(element: Element) -> bool
    ensures { result ≡ is_open element }
{
    matches!(element, Element::Repeat(_, 0))
}

// An element of a string that is only a set.
pub(crate) fn as_member(element: Element) -> Element
    ensures { result ≡ as_member element }
{
    match element {
        Element::Repeat(byte, _) => Element::Byte(byte),
        other => other,
    }
}

// Whether a repeat is among these.
pub(crate) fn has_repeat(elements: &[Element]) -> bool
    ensures { result ≡ list_any is_repeat elements.now }
{
    elements.iter().any(|element| is_repeat(*element))
}

// Whether an equivalence class is among these.
fn has_equivalence(elements: &[Element]) -> bool
    ensures { result ≡ list_any is_equivalence elements.now }
{
    elements.iter().any(|element| is_equivalence(*element))
}

// How many of these are repeats that are meant as often as needed.
fn open_repeats(elements: &[Element]) -> usize
    ensures { result ≡ count_by is_open elements.now }
{
    elements.iter().filter(|element| is_open(**element)).count()
}

// Whether a second string may hold these elements.
pub(crate) fn may_be_second(elements: &[Element]) -> bool
    ensures { result ≡ may_be_second elements.now }
{
    !has_equivalence(elements) && open_repeats(elements) <= 1
}

// The number of the first repeat among these, from 0.
pub(crate) fn first_repeat(elements: &[Element]) -> Option<usize> {
    elements.iter().position(|element| is_repeat(*element))
}

// The number of the first element that a second string may not hold after those before it.
pub(crate) fn first_unfit(elements: &[Element]) -> Option<usize> {
    let mut is_filled = false;
    for (number, element) in elements.iter().enumerate() {
        if is_equivalence(*element) || is_filled && is_open(*element) {
            return Some(number);
        }
        is_filled = is_filled || is_open(*element);
    }
    None
}

// Whether one of two classes is `lower` and the other one `upper`.
fn is_other(a: Class, b: Class) -> bool
    ensures { result ≡ is_other a b }
{
    match (a, b) {
        (Class::Lower, Class::Upper) => true,
        (Class::Upper, Class::Lower) => true,
        _ => false,
    }
}

// Whether the other one of these classes begins at this place.
fn has_other(first: &[(usize, Class)], place: usize, class: Class) -> bool
    ensures { result
        ≡ list_any (λ (q : ℕ × Class). (q.0 == place) && is_other q.1 class) first.now }
{
    let mut rest = first;
    'classes: while let Some((pair, after)) = split_first(rest) {
        if pair.0 == place && is_other(pair.1, class) {
            return true;
        }
        rest = after;
    }
    false
}

// Whether each class of the second string begins at the place of the other one in the first.
pub(crate) fn are_paired(first: &[(usize, Class)], second: &[(usize, Class)]) -> bool
    ensures { result ≡ are_paired first.now second.now }
{
    let mut rest = second;
    'classes: while let Some((pair, after)) = split_first(rest) {
        if !has_other(first, pair.0, pair.1) {
            return false;
        }
        rest = after;
    }
    true
}

// The number of the first class of the second string that does not begin at the place of the other one in the first.
pub(crate) fn first_unpaired(first: &[(usize, Class)], second: &[(usize, Class)]) -> Option<usize> {
    second
        .iter()
        .position(|pair| !has_other(first, pair.0, pair.1))
}

// The number of the element that is the class with this number.
pub(crate) fn element_of_class(elements: &[Element], class: usize) -> Option<usize> {
    let mut left = class;
    for (number, element) in elements.iter().enumerate() {
        if matches!(element, Element::OfClass(_)) {
            if left == 0 {
                return Some(number);
            }
            left -= 1;
        }
    }
    None
}
