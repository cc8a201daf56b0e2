ghost use Rattle.std.specs.Prelude.{◌≡◌, [], false, codes, IfOk, IfErr};
ghost use Rattle.clap.specs.Words.{HasKind, app_of, found_of, new_app, rows_of, rule_of};
ghost use Rattle.clap.specs.Walk.{texts};
ghost use Rattle.command_line.specs.CommandLine.{faults_in, flag_rule, named_rule, number_rule, plrun, rows_in, script_rule, text_rule, version_rule, with_numbers, with_others, with_pipes, with_plans, with_questions, with_runs, with_shown};

use clap::builder::ValueParser;
use clap::{Arg, ArgAction, ArgMatches, Command, Error};
use std::alloc::{AllocError, Global};

/// The value of `-c`: the text of the script.
pub const TEXT: &str = "TEXT";

/// The operand: the name of the file that holds the script.
pub const SCRIPT: &str = "SCRIPT";

/// How many threads run the commands at most.
pub const WORKERS: &str = "workers";

/// How many pieces a pipe holds at first.
pub const CAPACITY: &str = "capacity";

/// How many pieces a full pipe may grow to hold.
pub const MAX_CAPACITY: &str = "max-capacity";

/// How many bytes a pipe holds.
pub const BYTES: &str = "bytes";

/// How many bytes a piece has at most.
pub const BLOCK: &str = "block";

/// How many turns a thread takes in a phase at most.
pub const TURNS: &str = "turns";

/// Prints the plan.
pub const PLAN: &str = "plan";

/// Prints the plan as a digraph of Graphviz.
pub const DOT: &str = "dot";

/// Prints the two scripts that run it over an input in parts.
pub const SHARDS: &str = "shards";

/// Looks at the files of the script.
pub const CHECK: &str = "check";

/// When a run is refused if an operand is missing.
pub const STRICT: &str = "strict";

/// Ends without a line if the reader of the standard output has ended.
pub const QUIET_PIPE: &str = "quiet-pipe";

/// Gives outputs their new content only if the run finished.
pub const ATOMIC: &str = "atomic";

/// Shows how far the run is.
pub const PROGRESS: &str = "progress";

/// Shows what the run moved.
pub const STATS: &str = "stats";

/// The file that statistics are written to.
pub const STATS_TO: &str = "stats-to";

/// The folder that all names are relative to.
pub const CD: &str = "cd";

/// Writes hints after the lines of a fault.
pub const HINTS: &str = "hints";

/// Says what a fault means.
pub const EXPLAIN: &str = "explain";

/// Prints the version.
pub const VERSION: &str = "version";

// The value of `-c`.
fn text_argument<'a>(alloc: Global) -> Arg<'a>
    ensures { (rule_of result ≡ text_rule) × (result.global ≡ false) }
{
    Arg::new(alloc, TEXT)
        .short('c')
        .value_name("TEXT")
        .help("The text of the script")
}

// An option that takes a number from 1 to the greatest. The help writes this letter for the number.
fn number_argument<'a>(
    alloc: Global,
    name: &'a str,
    letter: &'a str,
    default: &'a str,
    most: u64,
    help: &'a str,
) -> Arg<'a>
    ensures { (rule_of result ≡ number_rule name.entry.now default.entry.now most)
        × (result.global ≡ false) }
{
    Arg::new(alloc, name)
        .long(name)
        .value_name(letter)
        .value_parser(ValueParser::unsigned(1, most))
        .default_value(default)
        .help(help)
}

// An option that takes no value.
fn flag_argument<'a>(alloc: Global, name: &'a str, help: &'a str) -> Arg<'a>
    ensures { (rule_of result ≡ flag_rule name.entry.now) × (result.global ≡ false) }
{
    Arg::new(alloc, name)
        .long(name)
        .action(ArgAction::SetTrue)
        .help(help)
}

// An option that takes a text. The help writes this word for it.
fn named_argument<'a>(alloc: Global, name: &'a str, value: &'a str, help: &'a str) -> Arg<'a>
    ensures { (rule_of result ≡ named_rule name.entry.now) × (result.global ≡ false) }
{
    Arg::new(alloc, name)
        .long(name)
        .value_name(value)
        .help(help)
}

// The version, by either of its options.
fn version_argument<'a>(alloc: Global) -> Arg<'a>
    ensures { (rule_of result ≡ version_rule) × (result.global ≡ false) }
{
    flag_argument(
        alloc,
        VERSION,
        "Prints the version, and by which toolchain it is proved",
    )
    .short('V')
}

// The name of the file that holds the script.
fn script_argument<'a>(alloc: Global) -> Arg<'a>
    ensures { (rule_of result ≡ script_rule) × (result.global ≡ false) }
{
    Arg::new(alloc, SCRIPT).help("The file that holds the script")
}

// The options that say how many pieces and bytes a pipe holds.
fn with_pipes<'a>(alloc: Global, command: Command<'a>) -> Result<Command<'a>, AllocError>
    ensures { IfOk result (λ command'. app_of command' ≡ with_pipes (app_of command.entry)) }
{
    command
        .arg(number_argument(
            alloc,
            CAPACITY,
            "N",
            "16",
            4096,
            "How many pieces a pipe holds at first, 1 to 4096",
        ))?
        .arg(number_argument(
            alloc,
            MAX_CAPACITY,
            "M",
            "4096",
            4096,
            "How many pieces a full pipe may grow to hold, from the capacity to 4096",
        ))?
        .arg(number_argument(
            alloc,
            BYTES,
            "B",
            "268435456",
            268_435_456,
            "How many bytes a pipe holds, as 64K or 1M, from the block to 268435456",
        ))
}

// The six options that take a number.
fn with_numbers<'a>(alloc: Global, command: Command<'a>) -> Result<Command<'a>, AllocError>
    ensures { IfOk result (λ command'. app_of command' ≡ with_numbers (app_of command.entry)) }
{
    let threaded = command.arg(number_argument(
        alloc,
        WORKERS,
        "N",
        "4",
        16,
        "How many threads run the commands at most, 1 to 16; without it as many as pay, at most 4",
    ))?;
    with_pipes(alloc, threaded)?
        .arg(number_argument(
            alloc,
            BLOCK,
            "N",
            "4096",
            65536,
            "How many bytes a piece and a read have at most, as 512 or 64K, 1 to 65536; without it reads begin with 4096, and a piece has at most 65536",
        ))?
        .arg(number_argument(
            alloc,
            TURNS,
            "N",
            "1000000",
            1_000_000,
            "How many turns a thread takes in a phase at most, 1 to 1000000",
        ))
}

// The options by which a script is not run.
fn with_plans<'a>(alloc: Global, command: Command<'a>) -> Result<Command<'a>, AllocError>
    ensures { IfOk result (λ command'. app_of command' ≡ with_plans (app_of command.entry)) }
{
    command
        .arg(named_argument(
            alloc,
            PLAN,
            "FORM",
            "Prints the plan of the script and runs nothing; --plan=full: with words and FIFOs; --plan=json: for programs",
        ))?
        .arg(flag_argument(
            alloc,
            DOT,
            "Prints the plan as a digraph of Graphviz and runs nothing",
        ))?
        .arg(named_argument(
            alloc,
            SHARDS,
            "FORM",
            "Prints the two scripts that run the script over an input in parts, and runs nothing; --shards=map, --shards=combine: one of the two; --shards=json: for programs",
        ))?
        .arg(flag_argument(
            alloc,
            CHECK,
            "Looks whether the inputs are there and the outputs can be written, and runs nothing",
        ))
}

// The options that say how a run goes.
fn with_runs<'a>(alloc: Global, command: Command<'a>) -> Result<Command<'a>, AllocError>
    ensures { IfOk result (λ command'. app_of command' ≡ with_runs (app_of command.entry)) }
{
    command
        .arg(named_argument(
            alloc,
            STRICT,
            "WHEN",
            "Refuses the run if any operand cannot be opened, before an output is opened, as --atomic does; --strict=never: not even then",
        ))?
        .arg(flag_argument(
            alloc,
            QUIET_PIPE,
            "Ends with status 141 and no line if the reader of the standard output has ended",
        ))?
        .arg(named_argument(
            alloc,
            ATOMIC,
            "HOW",
            "Gives outputs their new content only if the run finished; --atomic=synced: stored as well",
        ))
}

// The options that say what is shown of a run.
fn with_shown<'a>(alloc: Global, command: Command<'a>) -> Result<Command<'a>, AllocError>
    ensures { IfOk result (λ command'. app_of command' ≡ with_shown (app_of command.entry)) }
{
    command
        .arg(named_argument(
            alloc,
            PROGRESS,
            "WHEN",
            "Shows how far the run is, if the standard error is a terminal; --progress=always: anywhere",
        ))?
        .arg(named_argument(
            alloc,
            STATS,
            "FORM",
            "Prints after the run, on the standard error, how long each command worked and how much each pipe moved; --stats=json: for programs",
        ))?
        .arg(named_argument(
            alloc,
            STATS_TO,
            "FILE",
            "Writes the lines of --stats to this file, and not to the standard error",
        ))?
        .arg(named_argument(
            alloc,
            HINTS,
            "WHEN",
            "Prints after a fault its place and a repair, if the standard error is a terminal; --hints: always; --hints=line: as compilers do; --hints=never: not at all",
        ))
}

// The options that say how a run goes and what is shown of it, the one that names a folder, and the operand.
fn with_others<'a>(alloc: Global, command: Command<'a>) -> Result<Command<'a>, AllocError>
    ensures { IfOk result (λ command'. app_of command' ≡ with_others (app_of command.entry)) }
{
    let command = with_plans(alloc, command)?;
    let command = with_runs(alloc, command)?;
    with_shown(alloc, command)?
        .arg(named_argument(
            alloc,
            CD,
            "DIR",
            "Takes all names as those of files below this folder, that of the script too",
        ))?
        .arg(script_argument(alloc))
}

// The options that ask about the program itself.
fn with_questions<'a>(alloc: Global, command: Command<'a>) -> Result<Command<'a>, AllocError>
    ensures { IfOk result (λ command'. app_of command' ≡ with_questions (app_of command.entry)) }
{
    command
        .arg(named_argument(
            alloc,
            EXPLAIN,
            "CODE",
            "Explains a fault by its code or name, as A5, BadList or stalled, with a repair; as the last word, without a code: lists all",
        ))?
        .arg(version_argument(alloc))
}

// The program, with no option and no operand.
fn program<'a>(alloc: Global) -> Command<'a>
    ensures { app_of result ≡ new_app (codes "plrun") }
{
    Command::new(alloc, "plrun")
        .about("Runs one script of POSIX shell pipelines inside one process.")
        .override_usage(
            "plrun [--workers N] [--capacity N] [--max-capacity M] [--bytes B] [--block N] [--turns N] [--strict[=WHEN]] [--quiet-pipe] [--atomic[=HOW]] [--progress[=WHEN]] [--stats[=FORM]] [--stats-to FILE] [--hints[=WHEN]] [--cd DIR] [--plan[=FORM] | --dot | --shards[=FORM]] [--check] {-c TEXT | SCRIPT | --explain [CODE] | --version}",
        )
}

// The options and operands that there are.
fn command_line<'a>(alloc: Global) -> Result<Command<'a>, AllocError>
    ensures { IfOk result (λ command. app_of command ≡ plrun) }
{
    let command = program(alloc).arg(text_argument(alloc))?;
    let command = with_numbers(alloc, command)?;
    let command = with_others(alloc, command)?;
    with_questions(alloc, command)
}

/// What these words give for each option and operand, the program's name first (POSIX.1-2017 XBD 12.2), or what is wrong with them.
pub fn parse<'a>(alloc: Global, words: &'a [&'a str]) -> Result<ArgMatches<'a>, Error>
    ensures rows { IfOk result
        (λ matches. (faults_in (texts words.entry.now) ≡ [])
        × (rows_of (found_of matches) ≡ rows_in (texts words.entry.now))) }
    ensures faults { IfErr result (HasKind (faults_in (texts words.entry.now))) }
{
    command_line(alloc)?.try_get_matches_from(words)
}
