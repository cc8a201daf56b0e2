// Why an output is not opened that was to be held back.
use collector::NotOpened;
use held_outputs::NotMade;

// The same as a refusal, or as a want of memory.
pub(crate) fn not_opened(why: NotMade) -> NotOpened {
    match why {
        NotMade::NoMemory => NotOpened::NoMemory,
        NotMade::Refused | NotMade::NotHeld(_) => NotOpened::Refused,
    }
}
