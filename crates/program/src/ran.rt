ghost use Rattle.std.specs.Prelude.{◌≡◌, ◌≢◌, IfOk, OnErr};
ghost use Rattle.program.specs.Statuses.{status_of};

use crate::ending::{Ending, Refusal};
use openings::Opened;
use pipeline_text::Script;
use planner::Plan;
use run_types::Statistics;
use std::alloc::Global;
use std::io::Write;

/// The exit status if nothing was run.
pub const EXIT_REFUSED: u8 = 2;

/// The script of a request, as far as it was read.
#[derive(Drop)]
pub struct ScriptRead {
    /// Its text, if the request names a script and that was read.
    pub text: Option<Vec<u8>>,
    /// The script, if the text is one.
    pub script: Option<Script>,
    /// Its plan, if it has one.
    pub plan: Option<Plan>,
}

impl ScriptRead {
    /// Nothing was read.
    pub const NOTHING: ScriptRead = ScriptRead {
        text: None,
        script: None,
        plan: None,
    };
}

/// The result of a request that was carried out.
#[derive(Drop)]
pub struct Ran {
    /// How it ended.
    pub ending: Ending,
    /// The script that it names.
    pub read: ScriptRead,
    /// The files of the script, if it was run.
    pub opened: Option<Opened>,
    /// What the run moved, if there was one.
    pub statistics: Option<Statistics>,
}

impl From<Ending> for Ran {
    ghost use Rattle.std.specs.Prelude.{◌≡◌};

    ghost from_gives = { λ ending ran. ran.ending ≡ ending };

    fn from(ending: Ending) -> Ran {
        Ran {
            ending,
            read: ScriptRead::NOTHING,
            opened: None,
            statistics: None,
        }
    }
}

/// Why a request was refused, and what was read of its script.
#[derive(Drop)]
pub struct Refused<'a> {
    pub why: Refusal<'a>,
    pub read: ScriptRead,
}

impl<'a> From<Refusal<'a>> for Refused<'a> {
    ghost use Rattle.std.specs.Prelude.{◌≡◌};

    ghost from_gives = { λ why refused. refused.why ≡ why };

    fn from(why: Refusal<'a>) -> Refused<'a> {
        Refused {
            why,
            read: ScriptRead::NOTHING,
        }
    }
}

/// Writes the lines of the result of a request, and returns the exit status: 0 or 1 if it was carried out, 2 if it was refused, 3 if
/// its run stalled, and 4 if it could not go on. If memory is refused, a first part of the lines is written.
pub fn report<E: Write>(alloc: Global, answer: &Result<Ran, Refused<'_>>, errors: &mut E) -> u8
    ensures ended { IfOk answer.now (λ ran. (result ≡ status_of ran.ending) × (result ≢ 2)) }
    ensures refused { OnErr answer.now (result ≡ 2) }
{
    match answer {
        Ok(ran) => {
            ran.ending.report(errors);
            ran.ending.status()
        }
        Err(refused) => {
            refused.why.report(alloc, errors);
            EXIT_REFUSED
        }
    }
}
