// What is wrong in the words of a command, by the fault.
use crate::hint::Hint;
use crate::late::add_order;
use crate::numbers::{wrong_list, wrong_number};
use crate::options::{both_excluded, missing_argument, wrong_operand};
use crate::refused::RefusedWords;
use crate::strings::wrong_string;
use command_words::{ArgFault, Span};
use std::alloc::AllocError;
use std::io;

// What is wrong in the words of a command, and what to do.
#[derive(Clone, Copy)]
pub(crate) struct Wrong {
    // What is marked instead of the part that is at fault.
    place: Option<Span>,
    cause: &'static str,
    advice: Advice,
}

// What to do about a wrong word.
#[derive(Clone, Copy)]
pub(crate) enum Advice {
    // The usage alone says it.
    Usage,
    Text(&'static str),
    // A text that ends with the marked word.
    Named(&'static str),
    // The same words with the options first.
    Order,
}

impl Wrong {
    // What is wrong with the part that is at fault, if only the usage is to be told.
    pub(crate) fn new(cause: &'static str) -> Wrong {
        Wrong {
            place: None,
            cause,
            advice: Advice::Usage,
        }
    }

    // The same at another place.
    pub(crate) fn at(self, place: Option<Span>) -> Wrong {
        Wrong { place, ..self }
    }

    // The same with advice.
    pub(crate) fn with(self, advice: Advice) -> Wrong {
        Wrong { advice, ..self }
    }
}

// What is wrong in the words of a command.
fn wrong_in(refused: &RefusedWords<'_>) -> Result<Wrong, AllocError> {
    Ok(match refused.bad.fault() {
        ArgFault::MissingArgument => missing_argument(refused),
        ArgFault::BadNumber => wrong_number(refused),
        ArgFault::BadList => wrong_list(refused),
        ArgFault::BadSet => wrong_string(refused)?,
        ArgFault::ExclusiveOptions => both_excluded(refused),
        _ => wrong_operand(refused),
    })
}

// Marks what is wrong in the words of a command, and says what to do.
pub(crate) fn add_wrong(refused: &RefusedWords<'_>, hint: &mut Hint<'_>) -> io::Result<()> {
    let bad = refused.bad;
    let wrong = wrong_in(refused)?;
    let own = refused.word().and_then(|word| word.place());
    if let Some(place) = wrong.place.or(bad.place()).or(own) {
        match bad.other() {
            Some(other) if other != place => hint.mark_both([place, other], wrong.cause)?,
            _ => hint.mark(Some(place), wrong.cause)?,
        }
        let marked = hint.source.bytes(place);
        match wrong.advice {
            Advice::Usage => {}
            Advice::Text(text) => hint.repair(text)?,
            Advice::Named(text) => hint.repair_with(text, marked)?,
            Advice::Order => add_order(refused.utility, refused.words, hint)?,
        }
    }
    hint.usage(refused.utility.usage)
}
