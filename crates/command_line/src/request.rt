ghost use Rattle.std.specs.Prelude.{◌≡◌, ◌≤◌, IfOk, IfErr};
ghost use Rattle.clap.specs.Words.{found_of, rows_of};
ghost use Rattle.clap.specs.Walk.{texts};
ghost use Rattle.run_types.specs.Placings.{is_held};
ghost use Rattle.command_line.specs.Numbers.{GivesNumber, GivesSettings, KnowsSettings, greatest_piece, is_given};
ghost use Rattle.command_line.specs.Requests.{AsksFor, GivesFlag, GivesForm, GivesJob, GivesName, GivesNamedForm, GivesPlacing, GivesQuestion, GivesScript, GivesShards, GivesStrict, GivesTextForm, IsAskedBy, IsMisuse, IsMisusedBy, KnowsHow, KnowsNamedForm, KnowsScript, LacksJob};
ghost use Rattle.command_line.specs.Shown.{GivesProgress, GivesStats, GivesUnnamedStats, KnowsHints, KnowsProgress, KnowsShown, KnowsStats};

use crate::faults::{Explanation, explanation_of, names_all};
use crate::misuse::Misuse;
use crate::options::{
    ATOMIC, BLOCK, BYTES, CAPACITY, CD, CHECK, DOT, EXPLAIN, HINTS, MAX_CAPACITY, PLAN, PROGRESS,
    QUIET_PIPE, SCRIPT, SHARDS, STATS, STATS_TO, STRICT, TEXT, TURNS, VERSION, WORKERS, parse,
};
use crate::placings::{placing_named, strict_named};
use crate::showing::{Hints, PlanForm, Progress, ShardsForm, StatsForm};
use clap::error::ErrorKind;
use clap::parser::ValueSource;
use clap::{ArgMatches, Error};
use run_types::{Placing, Settings};
use std::alloc::Global;

// How many bytes a piece has at most if no block is given.
const GREATEST_PIECE: usize = 65_536;

/// The place of the script. Each character of these texts means a byte, as `bytes_of_text` says.
#[derive(Clone, Copy, Debug, PartialEq, Eq)]
pub enum ScriptFrom<'a> {
    /// It is the bytes of this text.
    Text(&'a str),
    /// It is the content of the file of this name.
    File(&'a str),
}

/// The request of a command line. Each character of its texts means a byte, as
/// `bytes_of_text` says.
#[derive(Drop)]
pub enum Request<'a> {
    /// To print the help, which is the text of this.
    Help(Error),
    /// To print the version.
    Version,
    /// To explain the fault of this code or name.
    Explain {
        code: &'a str,
        explanation: Explanation,
    },
    /// To list all faults.
    Codes,
    /// To print the plan of a script, if a form is given, and to run nothing. Whether the script's files are to be looked at as well:
    /// only a caller that knows the system's files can do so. The outputs of a run would get what is written at this time, and its statistics
    /// would be written to the file of this name, if one is given. All names, that of the script too, are relative to the folder, if one is
    /// given.
    Plan {
        script: ScriptFrom<'a>,
        form: Option<PlanForm>,
        check: bool,
        placing: Placing,
        stats_to: Option<&'a str>,
        folder: Option<&'a str>,
    },
    /// To run a script, and to show how far the run is and what it moved, if so. If it is strict, a missing operand refuses the run, as
    /// a missing input of `<` does. Its outputs get what is written as it is written, or all of them at the end. If the pipe is quiet
    /// and the reader of the standard output has ended, the run ends without a line. The statistics are written to the file of this name,
    /// if one is given, and to the standard error otherwise. All names, that of the script too, are relative to the folder, if one is given.
    Run {
        script: ScriptFrom<'a>,
        settings: Settings,
        strict: bool,
        placing: Placing,
        progress: Option<Progress>,
        stats: Option<StatsForm>,
        stats_to: Option<&'a str>,
        quiet_pipe: bool,
        folder: Option<&'a str>,
    },
}

impl<'a> Request<'a> {
    /// What these words ask for, each option with its value, the program's name first (POSIX.1-2017 XBD 12.2).
    pub fn read(alloc: Global, words: &'a [&'a str]) -> Result<Request<'a>, Misuse>
        ensures asks { IfOk result (AsksFor (texts words.entry.now)) }
        ensures misused { IfErr result (IsMisuse (texts words.entry.now)) }
    {
        match parse(alloc, words) {
            Ok(matches) => asked(&matches),
            Err(error) if error.kind() == ErrorKind::DisplayHelp => Ok(Request::Help(error)),
            Err(error) => Err(Misuse::Words(error)),
        }
    }
}

// What the options and operands ask for.
fn asked<'a>(matches: &ArgMatches<'a>) -> Result<Request<'a>, Misuse>
    ensures asks { IfOk result (IsAskedBy (rows_of (found_of matches.now))) }
    ensures misused { IfErr result (IsMisusedBy (rows_of (found_of matches.now))) }
{
    match question(matches)? {
        Some(question) => Ok(question),
        None => job(matches),
    }
}

// What is asked about the program itself, if anything is.
fn question<'a>(matches: &ArgMatches<'a>) -> Result<Option<Request<'a>>, Misuse>
    ensures asks { IfOk result (GivesQuestion (rows_of (found_of matches.now))) }
    ensures misused { IfErr result (IsMisusedBy (rows_of (found_of matches.now))) }
{
    if is_set(matches, VERSION) {
        return Ok(Some(Request::Version));
    }
    let Some(code) = matches.get_str(EXPLAIN) else {
        return Ok(None);
    };
    if names_all(code) {
        return Ok(Some(Request::Codes));
    }
    match explanation_of(code) {
        Some(explanation) => Ok(Some(Request::Explain { code, explanation })),
        None => Err(Misuse::NoSuchCode),
    }
}

// What a script is asked for.
fn job<'a>(matches: &ArgMatches<'a>) -> Result<Request<'a>, Misuse>
    ensures asks { IfOk result (GivesJob (rows_of (found_of matches.now))) }
    ensures misused { IfErr result (LacksJob (rows_of (found_of matches.now))) }
{
    let settings = settings(matches)?;
    let script = script_from(matches)?;
    let progress = asked_progress(matches)?;
    let stats = asked_stats(matches)?;
    check_hints(matches)?;
    let placing = asked_placing(matches)?;
    let strict = asked_strict(matches, placing)?;
    let form = plan_form(matches)?;
    let check = is_set(matches, CHECK);
    let stats_to = name_of(matches, STATS_TO);
    let folder = name_of(matches, CD);
    if check || form.is_some() {
        return Ok(Request::Plan {
            script,
            form,
            check,
            placing,
            stats_to,
            folder,
        });
    }
    Ok(Request::Run {
        script,
        settings,
        strict,
        placing,
        progress,
        stats,
        stats_to,
        quiet_pipe: is_set(matches, QUIET_PIPE),
        folder,
    })
}

// The place at which progress is to be shown, if it is.
fn asked_progress(matches: &ArgMatches<'_>) -> Result<Option<Progress>, Misuse>
    requires { KnowsSettings (rows_of (found_of matches.now)) × KnowsScript (rows_of (found_of matches.now)) }
    ensures given { IfOk result (GivesProgress (rows_of (found_of matches.now))) }
    ensures misused { IfErr result (LacksJob (rows_of (found_of matches.now))) }
{
    let Some(name) = matches.get_str(PROGRESS) else {
        return Ok(None);
    };
    match Progress::named(name) {
        Some(progress) => Ok(Some(progress)),
        None => Err(Misuse::NoSuchProgress),
    }
}

// How the statistics of the run are to be printed, if they are.
fn asked_stats(matches: &ArgMatches<'_>) -> Result<Option<StatsForm>, Misuse>
    requires { KnowsSettings (rows_of (found_of matches.now)) × KnowsScript (rows_of (found_of matches.now))
        × KnowsProgress (rows_of (found_of matches.now)) }
    ensures given { IfOk result (GivesStats (rows_of (found_of matches.now))) }
    ensures misused { IfErr result (LacksJob (rows_of (found_of matches.now))) }
{
    let Some(name) = matches.get_str(STATS) else {
        return Ok(unnamed_stats(matches));
    };
    match StatsForm::named(name) {
        Some(form) => Ok(Some(form)),
        None => Err(Misuse::NoSuchStats),
    }
}

// How the statistics are to be printed if no form is named: in lines, if a file is named for them.
fn unnamed_stats(matches: &ArgMatches<'_>) -> Option<StatsForm>
    ensures { GivesUnnamedStats (rows_of (found_of matches.now)) result }
{
    match matches.get_str(STATS_TO) {
        Some(_) => Some(StatsForm::Text),
        None => None,
    }
}

// Checks the place at which hints are to be written, if one is named.
fn check_hints(matches: &ArgMatches<'_>) -> Result<(), Misuse>
    requires { KnowsSettings (rows_of (found_of matches.now)) × KnowsScript (rows_of (found_of matches.now))
        × KnowsProgress (rows_of (found_of matches.now)) × KnowsStats (rows_of (found_of matches.now)) }
    ensures known { IfOk result (λ _. KnowsHints (rows_of (found_of matches.now))) }
    ensures misused { IfErr result (LacksJob (rows_of (found_of matches.now))) }
{
    let Some(name) = matches.get_str(HINTS) else {
        return Ok(());
    };
    match Hints::named(name) {
        Some(_) => Ok(()),
        None => Err(Misuse::NoSuchHints),
    }
}

// When the outputs of a run get what is written to them.
fn asked_placing(matches: &ArgMatches<'_>) -> Result<Placing, Misuse>
    requires { KnowsSettings (rows_of (found_of matches.now)) × KnowsScript (rows_of (found_of matches.now))
        × KnowsShown (rows_of (found_of matches.now)) }
    ensures given { IfOk result (GivesPlacing (rows_of (found_of matches.now))) }
    ensures misused { IfErr result (LacksJob (rows_of (found_of matches.now))) }
{
    let Some(name) = matches.get_str(ATOMIC) else {
        return Ok(Placing::AsWritten);
    };
    match placing_named(name) {
        Some(placing) => Ok(placing),
        None => Err(Misuse::NoSuchAtomic),
    }
}

// Whether the run is strict, whose outputs get what is written to them at this time.
fn asked_strict(matches: &ArgMatches<'_>, placing: Placing) -> Result<bool, Misuse>
    requires { KnowsSettings (rows_of (found_of matches.now)) × KnowsScript (rows_of (found_of matches.now))
        × KnowsShown (rows_of (found_of matches.now)) × GivesPlacing (rows_of (found_of matches.now)) placing }
    ensures given { IfOk result (GivesStrict (rows_of (found_of matches.now)) placing) }
    ensures misused { IfErr result (LacksJob (rows_of (found_of matches.now))) }
{
    let Some(name) = matches.get_str(STRICT) else {
        return Ok(is_held(placing));
    };
    match strict_named(name) {
        Some(strict) => Ok(strict),
        None => Err(Misuse::NoSuchStrict),
    }
}

// Whether outputs are held back until the run has finished.
fn is_held(placing: Placing) -> bool
    ensures { result ≡ is_held placing }
{
    match placing {
        Placing::AsWritten => false,
        Placing::AtEnd | Placing::AtEndStored => true,
    }
}

// How the plan is to be printed, if it is.
fn plan_form(matches: &ArgMatches<'_>) -> Result<Option<PlanForm>, Misuse>
    requires { KnowsSettings (rows_of (found_of matches.now)) × KnowsScript (rows_of (found_of matches.now))
        × KnowsShown (rows_of (found_of matches.now)) × KnowsHow (rows_of (found_of matches.now)) }
    ensures form { IfOk result (GivesForm (rows_of (found_of matches.now))) }
    ensures misused { IfErr result (LacksJob (rows_of (found_of matches.now))) }
{
    let text = text_form(matches)?;
    match (text, is_set(matches, DOT)) {
        (Some(_), true) => Err(Misuse::TwoForms),
        (None, true) => Ok(Some(PlanForm::Dot)),
        (text, false) => Ok(text),
    }
}

// How the plan is to be printed by the names that are given: that of a form, or that of a form of the shards.
fn text_form(matches: &ArgMatches<'_>) -> Result<Option<PlanForm>, Misuse>
    requires { KnowsSettings (rows_of (found_of matches.now)) × KnowsScript (rows_of (found_of matches.now))
        × KnowsShown (rows_of (found_of matches.now)) × KnowsHow (rows_of (found_of matches.now)) }
    ensures form { IfOk result (GivesTextForm (rows_of (found_of matches.now))) }
    ensures misused { IfErr result (LacksJob (rows_of (found_of matches.now))) }
{
    let named = named_form(matches)?;
    let shards = shards_form(matches)?;
    match (named, shards) {
        (Some(_), Some(_)) => Err(Misuse::TwoForms),
        (None, Some(shards)) => Ok(Some(PlanForm::Shards(shards))),
        (named, None) => Ok(named),
    }
}

// The form of the plan whose name is given, if one is.
fn named_form(matches: &ArgMatches<'_>) -> Result<Option<PlanForm>, Misuse>
    requires { KnowsSettings (rows_of (found_of matches.now)) × KnowsScript (rows_of (found_of matches.now))
        × KnowsShown (rows_of (found_of matches.now)) × KnowsHow (rows_of (found_of matches.now)) }
    ensures form { IfOk result (GivesNamedForm (rows_of (found_of matches.now))) }
    ensures misused { IfErr result (LacksJob (rows_of (found_of matches.now))) }
{
    let Some(name) = matches.get_str(PLAN) else {
        return Ok(None);
    };
    match PlanForm::named(name) {
        Some(form) => Ok(Some(form)),
        None => Err(Misuse::NoSuchForm),
    }
}

// The form of the shards whose name is given, if one is.
fn shards_form(matches: &ArgMatches<'_>) -> Result<Option<ShardsForm>, Misuse>
    requires { KnowsSettings (rows_of (found_of matches.now)) × KnowsScript (rows_of (found_of matches.now))
        × KnowsShown (rows_of (found_of matches.now)) × KnowsHow (rows_of (found_of matches.now))
        × KnowsNamedForm (rows_of (found_of matches.now)) }
    ensures form { IfOk result (GivesShards (rows_of (found_of matches.now))) }
    ensures misused { IfErr result (LacksJob (rows_of (found_of matches.now))) }
{
    let Some(name) = matches.get_str(SHARDS) else {
        return Ok(None);
    };
    match ShardsForm::named(name) {
        Some(form) => Ok(Some(form)),
        None => Err(Misuse::NoSuchShards),
    }
}

// The name that is the value of this option, if the option is given.
fn name_of<'a>(matches: &ArgMatches<'a>, option: &str) -> Option<&'a str>
    ensures { GivesName (rows_of (found_of matches.now)) option.now result }
{
    matches.get_str(option)
}

// Whether the option of this name is there.
fn is_set(matches: &ArgMatches<'_>, name: &str) -> bool
    ensures { GivesFlag (rows_of (found_of matches.now)) name.now result }
{
    matches.get_flag(name)
}

// The settings that the words give, or the default ones.
fn settings(matches: &ArgMatches<'_>) -> Result<Settings, Misuse>
    ensures given { IfOk result (GivesSettings (rows_of (found_of matches.now))) }
    ensures misused { IfErr result (LacksJob (rows_of (found_of matches.now))) }
{
    let capacity = number(matches, CAPACITY, 4096);
    let max_capacity = number(matches, MAX_CAPACITY, 4096);
    if max_capacity < capacity {
        return Err(Misuse::MaxCapacityBelowCapacity);
    }
    let bytes = number(matches, BYTES, 268_435_456);
    let first_read = number(matches, BLOCK, 65536);
    if bytes < first_read {
        return Err(Misuse::BytesBelowBlock);
    }
    Ok(Settings {
        workers: number(matches, WORKERS, 16),
        fits_workers: !is_given(matches, WORKERS),
        capacity,
        max_capacity,
        bytes,
        block: greatest_piece(is_given(matches, BLOCK), first_read, bytes),
        first_read,
        turns: number(matches, TURNS, 1_000_000),
    })
}

// How many bytes a piece has at most, if the block is given or not.
fn greatest_piece(is_given: bool, first_read: usize, bytes: usize) -> usize
    ensures { result ≡ greatest_piece is_given first_read bytes }
{
    if is_given {
        first_read
    } else {
        bytes.min(GREATEST_PIECE)
    }
}

// Whether a word gives the option of this name its value.
#[tactic(auto, using(crate::proofs::lemmas::Given::word_given))]
fn is_given(matches: &ArgMatches<'_>, name: &str) -> bool
    ensures { result ≡ is_given (rows_of (found_of matches.now)) name.now }
{
    match matches.value_source(name) {
        Some(ValueSource::CommandLine) => true,
        Some(ValueSource::DefaultValue) => false,
        None => false,
    }
}

// The number of this name. The command line has one, and only one from 1 to the greatest.
fn number(matches: &ArgMatches<'_>, name: &str, most: usize) -> usize
    requires { 1 ≤ most }
    ensures within { (1 ≤ result) × (result ≤ most) }
    ensures given { GivesNumber (rows_of (found_of matches.now)) name.now most result }
{
    matches.get_one::<usize>(name).unwrap_or(1).clamp(1, most)
}

// The place of the script; to be given in one way only.
fn script_from<'a>(matches: &ArgMatches<'a>) -> Result<ScriptFrom<'a>, Misuse>
    requires { KnowsSettings (rows_of (found_of matches.now)) }
    ensures given { IfOk result (GivesScript (rows_of (found_of matches.now))) }
    ensures misused { IfErr result (LacksJob (rows_of (found_of matches.now))) }
{
    match (matches.get_str(TEXT), matches.get_str(SCRIPT)) {
        (Some(text), None) => Ok(ScriptFrom::Text(text)),
        (None, Some(name)) => Ok(ScriptFrom::File(name)),
        (Some(_), Some(_)) => Err(Misuse::NotOneScript),
        (None, None) => Err(Misuse::NotOneScript),
    }
}
