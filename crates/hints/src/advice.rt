// The hint that follows the lines of a refusal, of a fault or of a stall.
use crate::command_faults::add_command_fault;
use crate::hint::{Hint, HintForm};
use crate::plan_faults::add_plan_fault;
use crate::reasons::Reasons;
use crate::scripts::{about_text, add_text_fault};
use crate::shard_faults::add_shards_fault;
use crate::source::Source;
use crate::stalls::add_stall;
use crate::uses::{command, place_of};
use crate::words::Asked;
use collector::RunFault;
use command_line::Misuse;
use command_words::{ArgFault, BadWords, Word};
use commands::FilterSpec;
use network_laws::Waiting;
use openings::OpenFault;
use pipeline_text::{Script, TextFault};
use planner::{Node, Plan, PlanFault};
use run_types::Settings;
use shards::ShardsFault;
use std::alloc::{AllocError, Global};
use std::fmt::Display;
use std::io::{self, Write};

/// The script of a request, as far as it was read.
#[derive(Clone, Copy)]
pub struct Read<'a> {
    /// Its name and its text.
    pub source: Source<'a>,
    pub script: Option<&'a Script>,
    pub plan: Option<&'a Plan>,
}

/// Why a request was refused, or why its run did not finish.
#[derive(Clone, Copy)]
pub enum Trouble<'a> {
    /// The words ask for nothing.
    Words(&'a Misuse),
    /// The file that holds the script cannot be read.
    Unread,
    /// The text is no script.
    Text(&'a TextFault),
    /// The script has no plan.
    Plan(&'a PlanFault),
    /// The script has no shards.
    Shards(&'a ShardsFault),
    /// A file cannot be opened.
    Opening(&'a OpenFault),
    /// The file of this name is to have the statistics, and is one of the script. Each character means a byte.
    NotApart(&'a str),
    /// The file of this name is to have the statistics, and cannot be opened. Each character means a byte.
    NotReported(&'a str),
    /// The run stalled with these waits, and had these limits.
    Stalled {
        waits: &'a [Waiting],
        settings: Option<&'a Settings>,
    },
    /// The run could not go on.
    Faulted(&'a RunFault),
}

/// Writes the hints of one request.
#[derive(Drop)]
pub struct Adviser<'a, R> {
    pub alloc: Global,
    pub form: HintForm,
    /// The words of the request.
    pub asked: Asked<'a>,
    /// Its script.
    pub read: Read<'a>,
    /// What the system says of files.
    pub reasons: &'a R,
}

// How many commands of a script get a hint at most.
const MOST: usize = 10;

// How many commands are looked at after the first one that is refused.
const LOOKED_AT: usize = 4096;

// The code that the line of a fault begins with.
fn code_of<F: Display>(alloc: Global, fault: &F) -> Result<String, AllocError> {
    let line = format!(in alloc; "{fault}")?;
    String::from_str(alloc, line.as_str().split(' ').next().unwrap_or(""))
}

impl<R: Reasons> Adviser<'_, R> {
    /// Writes the lines for people that follow the lines of the program. At Err a part of them was written.
    pub fn write<W: Write>(&self, trouble: Trouble<'_>, to: &mut W) -> io::Result<()> {
        match trouble {
            Trouble::Words(misuse) => {
                let mut hint = self.hint("");
                self.asked.add_misuse(misuse, &mut hint)?;
                hint.write(to)
            }
            Trouble::Unread => self.write_unread(to),
            Trouble::Text(fault) => self.write_of_text(*fault, to),
            Trouble::Plan(fault) => self.write_of_plan(fault, to),
            Trouble::Shards(fault) => self.write_of_shards(fault, to),
            Trouble::Opening(OpenFault::InputNotOpened(name)) => self.write_input(name, false, to),
            Trouble::Opening(OpenFault::OutputNotOpened(name)) => self.write_output(name, to),
            Trouble::Opening(OpenFault::NoMemory) => self.write_refused("O3", to),
            Trouble::NotApart(name) => self.write_not_apart(name, to),
            Trouble::NotReported(name) => self.write_not_reported(name, to),
            Trouble::Stalled { waits, settings } => {
                let mut hint = self.hint("stalled");
                add_stall(self.read.script, self.read.plan, waits, settings, &mut hint)?;
                hint.more()?;
                hint.write(to)
            }
            Trouble::Faulted(fault) => self.write_of_run(fault, to),
        }
    }

    // Nothing yet of a fault with this code.
    pub(crate) fn hint<'h>(&'h self, code: &'h str) -> Hint<'h> {
        Hint::new(self.alloc, self.read.source, self.form, code)
    }

    // Writes that memory was refused, which is the fault with this code.
    fn write_refused<W: Write>(&self, code: &str, to: &mut W) -> io::Result<()> {
        let mut hint = self.hint(code);
        hint.point(None, "", "memory was refused")?;
        hint.more()?;
        hint.write(to)
    }

    // Writes why the script cannot be read.
    fn write_unread<W: Write>(&self, to: &mut W) -> io::Result<()> {
        let source = Source {
            name: self.asked.script,
            text: b"",
        };
        let mut hint = Hint::new(self.alloc, source, self.form, "");
        self.asked.add_unread(self.reasons, &mut hint)?;
        hint.write(to)
    }

    // Writes the hint for a text that is no script.
    fn write_of_text<W: Write>(&self, fault: TextFault, to: &mut W) -> io::Result<()> {
        let code = code_of(self.alloc, &fault)?;
        let mut hint = self.hint(code.as_str());
        add_text_fault(fault, &mut hint)?;
        self.add_about(&mut hint)?;
        hint.more()?;
        hint.write(to)
    }

    // Writes the hint for a script that has no plan.
    fn write_of_plan<W: Write>(&self, fault: &PlanFault, to: &mut W) -> io::Result<()> {
        match (fault, self.read.script) {
            (PlanFault::Arg { stage, .. }, Some(script)) => self.write_of_commands(
                script, *stage, to,
            ),
            (_, Some(script)) => {
                let code = code_of(self.alloc, fault)?;
                let mut hint = self.hint(code.as_str());
                add_plan_fault(script, fault, &mut hint)?;
                self.add_about(&mut hint)?;
                hint.more()?;
                hint.write(to)
            }
            (_, None) => Ok(()),
        }
    }

    // Writes the hint for a script that has no shards.
    fn write_of_shards<W: Write>(&self, fault: &ShardsFault, to: &mut W) -> io::Result<()> {
        let Some(script) = self.read.script else {
            return Ok(());
        };
        let code = code_of(self.alloc, fault)?;
        let mut hint = self.hint(code.as_str());
        add_shards_fault(script, fault, &mut hint)?;
        hint.more()?;
        hint.write(to)
    }

    // Writes the hint for each command whose words are refused, from the one of this number on.
    fn write_of_commands<W: Write>(
        &self,
        script: &Script,
        first: usize,
        to: &mut W,
    ) -> io::Result<()> {
        let mut said = Vec::new(self.alloc);
        for number in first..first.saturating_add(LOOKED_AT) {
            if said.len() >= MOST {
                break;
            }
            let Some(command) = command(script, number) else {
                break;
            };
            let words = command.words.as_slice();
            if let Err(bad) = FilterSpec::read(self.alloc, words) {
                self.write_of_command(words, &bad, said.as_slice(), to)?;
                said.push(bad.fault())?;
            }
        }
        Ok(())
    }

    // Writes the hint for a command whose words are refused. Hints for commands with these faults were written before it.
    fn write_of_command<W: Write>(
        &self,
        words: &[Word],
        bad: &BadWords,
        said: &[ArgFault],
        to: &mut W,
    ) -> io::Result<()> {
        let code = code_of(self.alloc, bad)?;
        let mut hint = self.hint(code.as_str());
        add_command_fault(words, bad, &mut hint)?;
        if said.is_empty() {
            self.add_about(&mut hint)?;
        }
        if !said.iter().any(|fault| *fault == bad.fault()) {
            hint.more()?;
        }
        hint.write(to)
    }

    // Adds what a text as a whole is, if that may be why it is refused.
    fn add_about(&self, hint: &mut Hint<'_>) -> io::Result<()> {
        match about_text(self.read.source.text) {
            Some(note) => hint.repair(note),
            None => Ok(()),
        }
    }

    // Writes the hint for a run that could not go on.
    fn write_of_run<W: Write>(&self, fault: &RunFault, to: &mut W) -> io::Result<()> {
        let code = code_of(self.alloc, fault)?;
        let mut hint = self.hint(code.as_str());
        match fault {
            RunFault::ReadFault(name) => self.add_unread(name, &mut hint)?,
            RunFault::WriteFault(name) => self.add_unwritten(name, &mut hint)?,
            RunFault::CountTooLarge(node) => self.add_count(*node, &mut hint)?,
            RunFault::NoMemory => hint.point(None, "", "memory was refused")?,
        }
        hint.more()?;
        hint.write(to)
    }

    // Adds that a count of the node of this number is too large.
    fn add_count(&self, node: usize, hint: &mut Hint<'_>) -> io::Result<()> {
        let found = match self.read.plan {
            Some(plan) => plan.order().get(node),
            None => None,
        };
        let place = match (found, self.read.script) {
            (Some(Node::Stage { number, .. }), Some(script)) => {
                command(script, *number).and_then(place_of)
            }
            _ => None,
        };
        hint.point(
            place,
            "it counts too much",
            "a count is above 9223372036854775807",
        )?;
        hint.advise("a count is above 9223372036854775807")
    }
}
