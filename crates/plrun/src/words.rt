// The words of this process and what PLRUN_OPTIONS holds, as the system hands them over.
ghost use Rattle.std.specs.Prelude.{◌≡◌, map, IfOk, IfSome, IsErrOf, None, Some, [], option_map, string_bytes, unwrap_or};
ghost use Rattle.command_line.specs.Spellings.{with_default_values};
ghost use Rattle.plrun.specs.Words.{AreHanded, Hands, given_options, given_words};
ghost use Rattle.plrun.specs.inner.Places.{held_at};

use crate::presets::OPTIONS;
use command_line::{ProcessWords, with_default_values};
use std::alloc::{AllocError, Global};
use std::env::FillError;
use std::rt::Env;

// How many bytes there is room for at first.
const ROOM: usize = 256;

/// Why bytes were not handed over.
#[derive(Clone, Copy)]
pub(crate) enum NotHanded {
    /// There are none.
    NotThere,
    /// There is too little room for them.
    TooLong,
    /// Memory is refused.
    NoMemory,
}

/// What hands over the words of a process and the variable of its options (POSIX.1-2017 XSH exec; XBD 8.1).
pub(crate) trait HandsWords {
    ghost use Rattle.std.specs.Prelude.{Option, List, ℕ, IfSome};
    ghost use Rattle.std.specs.List.{slice_get};
    ghost use Rattle.plrun.specs.Words.{Hands};

    /// The words of the command line, the program's name first, if they are known.
    ghost words: { Self → Option (List (List ℕ)) };

    /// The bytes of the variable, or none if it is not there, if that is known.
    ghost options: { Self → Option (Option (List ℕ)) };

    /// Copies the word of this number to the beginning of the room, and returns how many bytes it has.
    fn word(&self, number: usize, room: &mut [u8]) -> Result<usize, NotHanded>
        ensures { IfSome (words self.now) (λ ws. Hands (slice_get ws number) room.new result) };

    /// Copies the bytes of the variable to the beginning of the room, and returns how many there are.
    fn variable(&self, room: &mut [u8]) -> Result<usize, NotHanded>
        ensures { IfSome (options self.now) (λ held. Hands held room.new result) };
}

/// The words of this process, of its runtime.
#[derive(Clone, Copy)]
pub(crate) struct HostWords<R>(pub(crate) R);

impl<R: Env> HandsWords for HostWords<R> {
    ghost use Rattle.std.specs.Prelude.{None};

    ghost words = { λ _. None };

    ghost options = { λ _. None };

    fn word(&self, number: usize, room: &mut [u8]) -> Result<usize, NotHanded> {
        self.0.arg(number, room).map_err(not_handed)
    }

    fn variable(&self, room: &mut [u8]) -> Result<usize, NotHanded> {
        self.0.var(OPTIONS, room).map_err(not_handed)
    }
}

// The same cause.
fn not_handed(cause: FillError) -> NotHanded {
    match cause {
        FillError::NotPresent => NotHanded::NotThere,
        FillError::TooLong => NotHanded::TooLong,
    }
}

/// The words of the command line, the program's name first, and what PLRUN_OPTIONS holds, nothing if it is not there.
#[derive(Drop)]
pub(crate) struct GivenWords {
    pub(crate) words: Vec<Vec<u8>>,
    pub(crate) options: Vec<u8>,
}

impl GivenWords {
    /// Those that are handed over.
    pub(crate) fn read<H: HandsWords>(from: &H, alloc: Global) -> Result<GivenWords, AllocError>
        ensures { IfOk result (λ given. AreHanded (H.words from.now) (H.options from.now)
            (given_words given) (given_options given)) }
    {
        Ok(GivenWords {
            words: words_of(from, alloc)?,
            options: options_of(from, alloc)?,
        })
    }
}

/// The words of a process, each option with its value.
pub(crate) fn whole_words<'a>(
    alloc: Global,
    plain: &'a ProcessWords,
) -> Result<Vec<&'a str>, AllocError>
    ensures { IfOk result (λ whole. map (λ word. word.now) whole.items
        ≡ with_default_values (map (λ word. string_bytes word) plain.entry.now.words.items)) }
{
    let texts = plain.texts(alloc)?;
    with_default_values(alloc, texts.as_slice())
}

// The words of the command line.
fn words_of<H: HandsWords>(from: &H, alloc: Global) -> Result<Vec<Vec<u8>>, AllocError>
    ensures { IfOk result
        (λ given. IfSome (H.words from.now) (λ ws. map (λ word. word.items) given.items ≡ ws)) }
{
    let mut words = Vec::new(alloc);
    for number in 0..usize::MAX {
        let Some(bytes) = bytes_at(from, alloc, Place::Word(number))? else {
            return Ok(words);
        };
        words.push(bytes)?;
    }
    Err(AllocError)
}

// What the variable holds, nothing if it is not there.
fn options_of<H: HandsWords>(from: &H, alloc: Global) -> Result<Vec<u8>, AllocError>
    ensures { IfOk result
        (λ given. IfSome (H.options from.now) (λ held. given.items ≡ unwrap_or held [])) }
{
    match bytes_at(from, alloc, Place::Options)? {
        Some(bytes) => Ok(bytes),
        None => Ok(Vec::new(alloc)),
    }
}

// What bytes come from: the word of this number, or the variable.
#[derive(Clone, Copy)]
enum Place {
    Word(usize),
    Options,
}

// Fills the room with the bytes of this place.
fn fill<H: HandsWords>(from: &H, place: Place, room: &mut [u8]) -> Result<usize, NotHanded>
    ensures { IfSome (held_at (H.words from.now) (H.options from.now) place)
        (λ held. Hands held room.new result) }
{
    match place {
        Place::Word(number) => from.word(number, room),
        Place::Options => from.variable(room),
    }
}

// The bytes of this place, read into room for this many.
fn read_place<H: HandsWords>(
    from: &H,
    alloc: Global,
    place: Place,
    room: usize,
) -> Result<Vec<u8>, NotHanded>
    ensures given { IfOk result
        (λ bytes. IfSome (held_at (H.words from.now) (H.options from.now) place)
        (λ held. held ≡ Some bytes.items)) }
    ensures missing { IsErrOf result NotHanded.NotThere
        → IfSome (held_at (H.words from.now) (H.options from.now) place)
        (λ held. held ≡ None) }
{
    let Ok(mut bytes) = vec![in alloc; 0; room] else {
        return Err(NotHanded::NoMemory);
    };
    let length = fill(from, place, bytes.as_mut_slice())?;
    bytes.truncate(length);
    Ok(bytes)
}

// The bytes of this place, if they are there. If they are too many, there is twice the room the next time.
fn bytes_at<H: HandsWords>(
    from: &H,
    alloc: Global,
    place: Place,
) -> Result<Option<Vec<u8>>, AllocError>
    ensures { IfOk result
        (λ bytes. IfSome (held_at (H.words from.now) (H.options from.now) place)
        (λ held. held ≡ option_map (λ v. v.items) bytes)) }
{
    let mut room = ROOM;
    for _ in 0..usize::BITS {
        match read_place(from, alloc, place, room) {
            Ok(bytes) => return Ok(Some(bytes)),
            Err(NotHanded::NotThere) => return Ok(None),
            Err(NotHanded::TooLong) => room = room.saturating_mul(2),
            Err(NotHanded::NoMemory) => return Err(AllocError),
        }
    }
    Err(AllocError)
}
