// The names of outputs.
ghost use Rattle.std.specs.Prelude.{◌≡◌, ◌≢◌, IfOk, IsTrue, not};
ghost use Rattle.held_outputs.specs.inner.Holding.{IsApartFrom};

use crate::error_number::ErrorNumber;
use crate::new_file::path_of_new;
use crate::paths::{folder_and_name, text_of};
use folders::{CallFault, Name, Output};
use std::alloc::{AllocError, Global};

/// The names of an output whose place this is: its new file is next to it.
pub fn names_for(alloc: Global, place: &str) -> Result<Output, AllocError> {
    let new = path_of_new(alloc, place)?;
    Ok(Output {
        new: Name::from_vec(Vec::from_slice(alloc, new.as_str().as_bytes())?),
        place: Name::from_vec(Vec::from_slice(alloc, place.as_bytes())?),
    })
}

// The same names again.
pub(crate) fn copied(alloc: Global, names: &Output) -> Result<Output, AllocError>
    ensures { IfOk result (λ output. output ≡ names.now) }
{
    Ok(Output {
        new: names.new.copied(alloc)?,
        place: names.place.copied(alloc)?,
    })
}

// Whether the two names of an output are two, and neither is a name of these.
pub(crate) fn is_apart(outputs: &[Output], names: &Output) -> bool
    ensures { IsTrue result → IsApartFrom outputs.now names.now }
{
    let [first, rest @ ..] = outputs else {
        return !names.new.is(names.place.bytes());
    };
    !is_name_of(&names.new, first) && !is_name_of(&names.place, first) && is_apart(rest, names)
}

// Whether it is one of the names of an output.
fn is_name_of(name: &Name, output: &Output) -> bool
    ensures { IsTrue (not result) → (name.now ≢ output.now.new) × (name.now ≢ output.now.place) }
{
    name.is(output.new.bytes()) || name.is(output.place.bytes())
}

// Whether two outputs have a name in common, in whatever folders.
pub(crate) fn have_one_name(one: &Output, other: &Output) -> bool {
    let names = [name_in(&other.new), name_in(&other.place)];
    names.contains(&name_in(&one.new)) || names.contains(&name_in(&one.place))
}

// The name at the end of a path.
pub(crate) fn name_in(path: &Name) -> &str {
    folder_and_name(text_of(path)).1
}

// The number of the error of a call that failed.
pub(crate) fn number_of(why: CallFault) -> ErrorNumber {
    match why {
        CallFault::Refused(number) => number,
        CallFault::NoMemory => None,
    }
}
