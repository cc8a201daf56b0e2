ghost use Rattle.std.specs.Prelude.{◌≡◌, ◌==◌, IfOk, map as list_map};
ghost use Rattle.command_words.specs.declared.fault.ArgFault.TheVariants as faults;
ghost use Rattle.command_words.specs.inner.Refusals.{MeetsWords};
ghost use Rattle.tr_words.specs.Expansions.{as_member};
ghost use Rattle.tr_words.specs.Tables.{set_of, table_of};
ghost use Rattle.tr_words.specs.TrWords.{complemented_if, first_string, set_string, is_enough, filled, second_string, one_string, deleting_and_squeezing, set_if, translating, two_strings, command, tr_means};

use crate::element::{Element, elements, place_of};
use crate::expansion::{
    Expansion, are_paired, as_member, element_of_class, expanded, first_repeat, first_unfit,
    first_unpaired, has_repeat, may_be_second,
};
use crate::table::{complement, set_of, table_of};
use command_words::{
    ArgFault, BadWords, Sequence, Span, Word, is_given, place_of_word, split_options,
};
use machine::{NoMemory, split_first};
use std::alloc::{AllocError, Global};

/// The letters of the options of tr.
pub const LETTERS: &[u8] = b"cCds";

/// What tr does: which bytes it deletes, what each other byte becomes, and of which bytes it squeezes runs.
#[derive(Clone, Copy)]
pub struct TrSpec {
    /// What each byte becomes.
    pub table: [u8; 256],
    /// The bytes that are deleted, if any.
    pub deleted: Option<[bool; 256]>,
    /// The bytes, after translation, of which a run becomes a single one, if any.
    pub squeezed: Option<[bool; 256]>,
}

// Under `-c` the bytes that are not named.
fn complemented_if(
    alloc: Global,
    complements: bool,
    expansion: Expansion,
) -> Result<Expansion, NoMemory>
    ensures { IfOk result (λ x. x ≡ complemented_if complements expansion) }
{
    if !complements {
        return Ok(expansion);
    }
    Ok(Expansion {
        bytes: complement(alloc, expansion.bytes.as_slice())?,
        classes: Sequence::new(alloc),
    })
}

// That a string is refused at the element with this number.
fn at_element(string: &Word, number: Option<usize>) -> BadWords
    ensures { result ≡ faults.BadSet }
{
    let place = match number {
        Some(number) => place_of(string, number),
        None => string.place(),
    };
    BadWords::at(ArgFault::BadSet, place)
}

// What the first string means.
fn first_string(alloc: Global, complements: bool, string: &Word) -> Result<Expansion, BadWords>
    ensures { MeetsWords result (first_string complements string.now) }
{
    let elements = elements(alloc, string)?;
    if has_repeat(elements.as_slice()) {
        return Err(at_element(string, first_repeat(elements.as_slice())));
    }
    let expansion = expanded(alloc, 0, elements.as_slice(), string)?;
    Ok(complemented_if(alloc, complements, expansion)?)
}

// Equal elements, but each repeat becomes its byte.
fn members(alloc: Global, elements: &[Element]) -> Result<Vec<Element>, AllocError>
    ensures { IfOk result (λ members. members.items ≡ list_map as_member elements.now) }
{
    elements
        .iter()
        .map(|element| as_member(*element))
        .collect(alloc)
}

// The bytes of a second string that is only a set.
fn set_string(alloc: Global, string: &Word) -> Result<Sequence<u8>, BadWords>
    ensures { MeetsWords result (set_string string.now) }
{
    let elements = elements(alloc, string)?;
    let members = members(alloc, elements.as_slice()).map_err(NoMemory::from)?;
    let expansion = expanded(alloc, 0, members.as_slice(), string)?;
    Ok(expansion.bytes)
}

// Whether the second string has a byte for each of the first.
fn is_enough(first: &[u8], second: &[u8]) -> bool
    ensures { result ≡ is_enough first.now second.now }
{
    first.is_empty() || !second.is_empty()
}

// What the elements of a second string mean, if a repeat for as often as needed makes it this long,
// unless it is longer already.
fn filled(
    alloc: Global,
    length: usize,
    elements: &[Element],
    string: &Word,
) -> Result<Expansion, BadWords>
    ensures { MeetsWords result (filled length elements.now) }
{
    let short = expanded(alloc, 0, elements, string)?;
    let needed = length.saturating_sub(short.bytes.as_slice().len());
    expanded(alloc, needed, elements, string)
}

// That a second string is refused at the first class that the first string does not have in its place, or that it is too short.
fn unpaired(first: &Expansion, second: &Expansion, elements: &[Element], string: &Word) -> BadWords
    ensures { result ≡ faults.BadSet }
{
    match first_unpaired(first.classes.as_slice(), second.classes.as_slice()) {
        Some(class) => at_element(string, element_of_class(elements, class)),
        None => at_element(string, None),
    }
}

// The bytes of a second string to which the first is translated.
fn second_string(alloc: Global, first: &Expansion, string: &Word) -> Result<Sequence<u8>, BadWords>
    ensures { MeetsWords result (second_string first.now string.now) }
{
    let elements = elements(alloc, string)?;
    if !may_be_second(elements.as_slice()) {
        return Err(at_element(string, first_unfit(elements.as_slice())));
    }
    let bytes = first.bytes.as_slice();
    let second = filled(alloc, bytes.len(), elements.as_slice(), string)?;
    if are_paired(first.classes.as_slice(), second.classes.as_slice())
        && is_enough(bytes, second.bytes.as_slice())
    {
        Ok(second.bytes)
    } else {
        Err(unpaired(first, &second, elements.as_slice(), string))
    }
}

// One string, with `-d` or with `-s`.
fn one_string(
    alloc: Global,
    complements: bool,
    deletes: bool,
    squeezes: bool,
    string: &Word,
) -> Result<TrSpec, BadWords>
    ensures { MeetsWords result (one_string complements deletes squeezes string.now) }
{
    if deletes == squeezes {
        return Err(BadWords::at(ArgFault::BadOperands, string.place()));
    }
    let expansion = first_string(alloc, complements, string)?;
    let set = Some(set_of(expansion.bytes.as_slice()));
    let table = table_of(&[], &[]);
    if deletes {
        Ok(TrSpec {
            table,
            deleted: set,
            squeezed: None,
        })
    } else {
        Ok(TrSpec {
            table,
            deleted: None,
            squeezed: set,
        })
    }
}

// `-d` and `-s` with two strings.
fn deleting_and_squeezing(
    alloc: Global,
    complements: bool,
    string1: &Word,
    string2: &Word,
) -> Result<TrSpec, BadWords>
    ensures { MeetsWords result (deleting_and_squeezing complements string1.now string2.now) }
{
    let first = first_string(alloc, complements, string1)?;
    let second = set_string(alloc, string2)?;
    Ok(TrSpec {
        table: table_of(&[], &[]),
        deleted: Some(set_of(first.bytes.as_slice())),
        squeezed: Some(set_of(second.as_slice())),
    })
}

// The set of these bytes, under `-s`.
fn set_if(squeezes: bool, bytes: &[u8]) -> Option<[bool; 256]>
    ensures { result ≡ set_if squeezes bytes.now }
{
    if squeezes { Some(set_of(bytes)) } else { None }
}

// Translation of the first string to the second, and with `-s` squeezing of what is in the second.
fn translating(
    alloc: Global,
    complements: bool,
    squeezes: bool,
    string1: &Word,
    string2: &Word,
) -> Result<TrSpec, BadWords>
    ensures { MeetsWords result (translating complements squeezes string1.now string2.now) }
{
    let first = first_string(alloc, complements, string1)?;
    let second = second_string(alloc, &first, string2)?;
    let bytes = second.as_slice();
    Ok(TrSpec {
        table: table_of(first.bytes.as_slice(), bytes),
        deleted: None,
        squeezed: set_if(squeezes, bytes),
    })
}

// Two strings.
fn two_strings(
    alloc: Global,
    complements: bool,
    deletes: bool,
    squeezes: bool,
    string1: &Word,
    string2: &Word,
) -> Result<TrSpec, BadWords>
    ensures { MeetsWords result (two_strings complements deletes squeezes string1.now string2.now) }
{
    if !deletes {
        return translating(alloc, complements, squeezes, string1, string2);
    }
    if !squeezes {
        return Err(BadWords::at(ArgFault::BadOperands, string2.place()));
    }
    deleting_and_squeezing(alloc, complements, string1, string2)
}

// A command by whether `-c`, `-d` and `-s` are given.
fn command(
    alloc: Global,
    complements: bool,
    deletes: bool,
    squeezes: bool,
    operands: &[Word],
) -> Result<TrSpec, BadWords>
    ensures { MeetsWords result (command complements deletes squeezes operands.now) }
{
    let Some((first, after)) = split_first(operands) else {
        return Err(BadWords::new(ArgFault::BadOperands));
    };
    let Some((second, after)) = split_first(after) else {
        return one_string(alloc, complements, deletes, squeezes, first);
    };
    if split_first(after).is_some() {
        return Err(BadWords::at(ArgFault::BadOperands, place_of_word(after, 0)));
    }
    two_strings(alloc, complements, deletes, squeezes, first, second)
}

impl TrSpec {
    /// What the words after `tr` mean.
    pub fn read(alloc: Global, words: &[Word]) -> Result<TrSpec, BadWords>
        ensures { MeetsWords result (tr_means words.now) }
    {
        let options = split_options(alloc, words, LETTERS)?;
        let given = options.given.as_slice();
        command(
            alloc,
            is_given(given, b'c') || is_given(given, b'C'),
            is_given(given, b'd'),
            is_given(given, b's'),
            options.operands.as_slice(),
        )
    }
}
