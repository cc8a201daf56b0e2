use collector::RunFault;
use command_line::{Misuse, bytes_of_text, write_words_error};
use machine::NoMemory;
use network_laws::Waiting;
use openings::{OpenFault, Opened};
use pipeline_text::TextFault;
use planner::{InOpening, Plan, PlanFault};
use run_types::Escaped;
use shards::ShardsFault;
use std::alloc::Global;
use std::io::{self, Write};

/// Why nothing was run. Each character of its texts means a byte.
#[derive(Drop)]
pub enum Refusal<'a> {
    /// The words ask for nothing.
    Words(Misuse),
    /// The file that holds the script cannot be opened or read.
    NotRead(&'a str),
    /// The text is no script.
    Text(TextFault),
    /// The script has no plan.
    Plan(PlanFault),
    /// The script has no shards.
    Shards(ShardsFault),
    /// A file cannot be opened.
    Opening(OpenFault),
    /// The file that is named for the statistics is that of the script, or one of its plan.
    NotApart(&'a str),
    /// The file that is named for the statistics cannot be opened.
    NotReported(&'a str),
}

impl From<Misuse> for Refusal<'_> {
    ghost use Rattle.std.specs.Prelude.{◌≡◌};
    ghost use Rattle.program.specs.declared.ending.Refusal.TheVariants as refusal;

    ghost from_gives = { λ misuse given. given ≡ refusal.Words misuse };

    fn from(misuse: Misuse) -> Self {
        Refusal::Words(misuse)
    }
}

impl From<TextFault> for Refusal<'_> {
    ghost use Rattle.std.specs.Prelude.{◌≡◌};
    ghost use Rattle.program.specs.declared.ending.Refusal.TheVariants as refusal;

    ghost from_gives = { λ fault given. given ≡ refusal.Text fault };

    fn from(fault: TextFault) -> Self {
        Refusal::Text(fault)
    }
}

impl From<PlanFault> for Refusal<'_> {
    ghost use Rattle.std.specs.Prelude.{◌≡◌};
    ghost use Rattle.program.specs.declared.ending.Refusal.TheVariants as refusal;

    ghost from_gives = { λ fault given. given ≡ refusal.Plan fault };

    fn from(fault: PlanFault) -> Self {
        Refusal::Plan(fault)
    }
}

impl From<ShardsFault> for Refusal<'_> {
    ghost use Rattle.std.specs.Prelude.{◌≡◌};
    ghost use Rattle.program.specs.declared.ending.Refusal.TheVariants as refusal;

    ghost from_gives = { λ fault given. given ≡ refusal.Shards fault };

    fn from(fault: ShardsFault) -> Self {
        Refusal::Shards(fault)
    }
}

impl From<OpenFault> for Refusal<'_> {
    ghost use Rattle.std.specs.Prelude.{◌≡◌};
    ghost use Rattle.program.specs.declared.ending.Refusal.TheVariants as refusal;

    ghost from_gives = { λ fault given. given ≡ refusal.Opening fault };

    fn from(fault: OpenFault) -> Self {
        Refusal::Opening(fault)
    }
}

impl Refusal<'_> {
    // Writes the lines that say why nothing was run. If memory is refused, only a first part of them is written.
    pub(crate) fn report<E: Write>(&self, alloc: Global, errors: &mut E) {
        let _ = self.write_lines(alloc, errors);
    }

    // Writes the lines.
    fn write_lines<E: Write>(&self, alloc: Global, errors: &mut E) -> io::Result<()> {
        write!(errors, "plrun: ")?;
        match self {
            Refusal::Words(Misuse::Words(error)) => write_words_error(alloc, error, errors),
            Refusal::Words(misuse) => writeln!(errors, "{misuse}"),
            Refusal::NotRead(name) => {
                write!(errors, "cannot read ")?;
                write_line(alloc, name, errors)
            }
            Refusal::Text(fault) => writeln!(errors, "{fault}"),
            Refusal::Plan(fault) => writeln!(errors, "{fault}"),
            Refusal::Shards(fault) => writeln!(errors, "{fault}"),
            Refusal::Opening(fault) => writeln!(errors, "{fault}"),
            Refusal::NotApart(name) | Refusal::NotReported(name) => {
                write!(errors, "O2 OutputNotOpened: ")?;
                write_line(alloc, name, errors)
            }
        }
    }
}

// Writes a line of the bytes that a text means.
fn write_line<E: Write>(alloc: Global, text: &str, errors: &mut E) -> io::Result<()> {
    let bytes = bytes_of_text(alloc, text)?;
    writeln!(errors, "{}", Escaped(bytes.as_slice()))
}

/// How a request ended.
#[derive(Drop)]
pub enum Ending {
    /// The script was run, or the help or its plan printed; and whether the exit status is 0.
    Done {
        succeeded: bool,
    },
    /// No node can step, and these wait. Those of them that wait for one another in a circle follow, each for the next one and the last
    /// for the first, if any do, or that memory was refused for them.
    Stalled {
        waits: Vec<Waiting>,
        circle: Result<Option<Vec<usize>>, NoMemory>,
    },
    /// A node, or a write, failed.
    Faulted(RunFault),
}

impl Ending {
    ghost use Rattle.std.specs.Prelude.{◌≡◌, ◌≢◌};
    ghost use Rattle.program.specs.Statuses.{status_of};

    // The exit status.
    pub(crate) fn status(&self) -> u8
        ensures status { result ≡ status_of self.now }
        ensures other { result ≢ 2 }
    {
        match self {
            Ending::Done { succeeded: true } => 0,
            Ending::Done { succeeded: false } => 1,
            Ending::Stalled { .. } => 3,
            Ending::Faulted(_) => 4,
        }
    }

    // Writes the lines that say what went wrong. If memory is refused, a first part of them is
    // written.
    pub(crate) fn report<E: Write>(&self, errors: &mut E) {
        let _ = self.write_lines(errors);
    }

    // Writes the lines.
    fn write_lines<E: Write>(&self, errors: &mut E) -> io::Result<()> {
        match self {
            Ending::Done { succeeded: _ } => Ok(()),
            Ending::Stalled { waits, circle } => {
                write_waits(errors, waits.as_slice())?;
                write_circle(errors, circle)
            }
            Ending::Faulted(fault) => writeln!(errors, "plrun: {fault}"),
        }
    }
}

// Writes a line for each operand of a plan that cannot be opened. If memory is refused, a first
// part of them is written.
pub(crate) fn report_missing<E: Write>(plan: &Plan, opened: &Opened, errors: &mut E) {
    for place in opened.missing() {
        if let Some(opening) = plan.inputs().get(*place) {
            write_missing(errors, opening);
        }
    }
}

// Writes the line of an operand that cannot be opened.
fn write_missing<E: Write>(errors: &mut E, opening: &InOpening) {
    let InOpening { stage, name, .. } = opening;
    let _ = writeln!(errors, "plrun: stage {stage}: cannot open {name}");
}

// Writes a line for each node that waits, after one that says that they do.
fn write_waits<E: Write>(errors: &mut E, waits: &[Waiting]) -> io::Result<()> {
    writeln!(errors, "plrun: stalled")?;
    for wait in waits {
        let Waiting { node, pipe, full } = wait;
        let state = if *full { "full" } else { "empty" };
        writeln!(errors, "plrun: node {node} waits for pipe {pipe}: {state}")?;
    }
    Ok(())
}

// Writes the line of the nodes that wait in a circle, if there are any.
fn write_circle<E: Write>(
    errors: &mut E,
    circle: &Result<Option<Vec<usize>>, NoMemory>,
) -> io::Result<()> {
    match circle {
        Ok(Some(nodes)) => write_nodes(errors, nodes.as_slice()),
        Ok(None) => Ok(()),
        Err(_) => writeln!(errors, "plrun: {}", RunFault::NoMemory),
    }
}

// Writes a line of nodes that wait in a circle.
fn write_nodes<E: Write>(errors: &mut E, nodes: &[usize]) -> io::Result<()> {
    write!(errors, "plrun: circle")?;
    for node in nodes {
        write!(errors, " {node}")?;
    }
    writeln!(errors)
}
