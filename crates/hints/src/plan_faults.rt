// Hints for scripts that have no plan.
use crate::circles::circle_of;
use crate::hint::Hint;
use crate::uses::{Use, command, place_of, uses_of};
use commands::FilterSpec;
use pipeline_text::Script;
use planner::PlanFault;
use run_types::Escaped;
use std::io;

// A script that has no plan, with the places at which its files and FIFOs are named.
#[derive(Clone, Copy)]
struct Unplanned<'a> {
    script: &'a Script,
    uses: &'a [Use<'a>],
    fault: &'a PlanFault,
}

// Adds the hint for a script without a plan, whose commands are right.
pub(crate) fn add_plan_fault(
    script: &Script,
    fault: &PlanFault,
    hint: &mut Hint<'_>,
) -> io::Result<()> {
    let uses = uses_of(hint.alloc, script)?;
    let unplanned = Unplanned {
        script,
        uses: uses.as_slice(),
        fault,
    };
    match fault {
        PlanFault::TooMany => return unplanned.add_limit(hint),
        PlanFault::NoMemory => return hint.point(None, "", "memory was refused"),
        _ => {}
    }
    let is_of_file = matches!(fault, PlanFault::OutputTwice | PlanFault::ReadAndWritten);
    let name = unplanned.name();
    unplanned.add_places(name, hint)?;
    match name {
        Some(name) if is_of_file && name.starts_with(b"/dev/") => add_device(name, hint),
        _ => hint.advise(advice(fault)),
    }
}

// What to do about a fault of a plan.
fn advice(fault: &PlanFault) -> &'static str {
    match fault {
        PlanFault::FifoTwice => "make each FIFO once",
        PlanFault::ManyWriters =>
            "a FIFO has one writer: use a FIFO for each, and join them with cat",
        PlanFault::ManyReaders => "a FIFO has one reader: let tee write a FIFO for each",
        PlanFault::NoReader => "let a command read it, or do not make it",
        PlanFault::NoWriter => "let a command write it, as tee does, or do not make it",
        PlanFault::Cycle =>
            "the commands wait for each other in a circle: in no order does each read only from earlier ones",
        PlanFault::OutputTwice => "write two files, or join the outputs with cat",
        PlanFault::ReadAndWritten =>
            "if it is to join the commands, begin with mkfifo and this name; otherwise write another file",
        PlanFault::LastOutputIsFifo =>
            "the last command writes to a FIFO: put & after this pipeline, and let a last one read the FIFO",
        PlanFault::AsyncToStdout =>
            "a pipeline in the background writes to a file or a FIFO: add > and a name",
        _ => "",
    }
}

// Adds why a device is no exception, and what to do about it.
fn add_device(name: &[u8], hint: &mut Hint<'_>) -> io::Result<()> {
    hint.advise("names are compared before any file is looked at, so a device is no exception")?;
    let name = Escaped(name);
    let advice = format!(in hint.alloc;
        "name it in one place, and leave another to the calling shell: plrun -c '..' > {name}"
    )?;
    hint.advise(advice.as_str())
}

impl<'a> Unplanned<'a> {
    // The first name that is at fault, if one is.
    fn name(&self) -> Option<&'a [u8]> {
        let mut fifos = self.script.fifos.as_slice().iter();
        if let Some(fifo) = fifos.find(|fifo| self.is_at_fault(fifo.bytes())) {
            return Some(fifo.bytes());
        }
        let mut uses = self.uses.iter();
        let found = uses.find(|found| self.is_at_fault(found.name))?;
        Some(found.name)
    }

    // Whether the fault is that of a name that is made a FIFO, written and read as often as this one.
    fn is_at_fault(&self, name: &[u8]) -> bool {
        let fifos = self.script.fifos.as_slice().iter();
        let made = fifos.filter(|fifo| fifo.bytes() == name).count();
        let (writes, reads) = (self.count(name, true), self.count(name, false));
        match self.fault {
            PlanFault::FifoTwice => made > 1,
            PlanFault::ManyWriters => made > 0 && writes > 1,
            PlanFault::ManyReaders => made > 0 && reads > 1,
            PlanFault::NoReader => made > 0 && reads == 0,
            PlanFault::NoWriter => made > 0 && writes == 0,
            PlanFault::OutputTwice => made == 0 && writes > 1,
            PlanFault::ReadAndWritten => made == 0 && writes > 0 && reads > 0,
            _ => false,
        }
    }

    // How often a name is written, or read.
    fn count(&self, name: &[u8], writes: bool) -> usize {
        let uses = self.uses.iter();
        uses.filter(|found| found.name == name && found.writes == writes)
            .count()
    }

    // Marks the places of the fault, which is that of this name if there is one.
    fn add_places(&self, name: Option<&[u8]>, hint: &mut Hint<'_>) -> io::Result<()> {
        match (self.fault, name) {
            (PlanFault::AsyncToStdout, _) => self.mark_unredirected(hint),
            (PlanFault::LastOutputIsFifo, _) => self.mark_last(hint),
            (PlanFault::Cycle, _) => self.mark_circle(hint),
            (PlanFault::FifoTwice, Some(name)) => self.mark_made(name, hint),
            (PlanFault::NoReader | PlanFault::NoWriter, Some(name)) => {
                self.mark_made(name, hint)?;
                self.mark_uses(name, hint)
            }
            (_, Some(name)) => self.mark_uses(name, hint),
            (_, None) => Ok(()),
        }
    }

    // Marks the places at which a name is written or read.
    fn mark_uses(&self, name: &[u8], hint: &mut Hint<'_>) -> io::Result<()> {
        for found in self.uses {
            if found.name == name {
                mark(found, hint)?;
            }
        }
        Ok(())
    }

    // Marks the places at which a FIFO is made.
    fn mark_made(&self, name: &[u8], hint: &mut Hint<'_>) -> io::Result<()> {
        for fifo in self.script.fifos.as_slice() {
            if fifo.bytes() == name {
                hint.mark_use(fifo.place(), name, "made")?;
            }
        }
        Ok(())
    }

    // Marks the places at which the FIFOs of a circle are written and read.
    fn mark_circle(&self, hint: &mut Hint<'_>) -> io::Result<()> {
        let circle = circle_of(hint.alloc, self.script, self.uses)?;
        for link in circle.as_slice() {
            if let Some((written, read)) = link.uses {
                if let (Some(written), Some(read)) = (self.uses.get(written), self.uses.get(read)) {
                    mark(written, hint)?;
                    mark(read, hint)?;
                }
            }
        }
        Ok(())
    }

    // Marks the last command of each pipeline in the background that writes to the standard output.
    fn mark_unredirected(&self, hint: &mut Hint<'_>) -> io::Result<()> {
        let note = "in the background, and its output goes nowhere else";
        for pipeline in self.script.pipelines.as_slice() {
            match pipeline.commands.as_slice().last() {
                Some(last) if pipeline.background && last.target.is_none() => {
                    hint.mark(place_of(last), note)?;
                }
                _ => {}
            }
        }
        Ok(())
    }

    // Marks the last command.
    fn mark_last(&self, hint: &mut Hint<'_>) -> io::Result<()> {
        let last = self.script.pipelines.as_slice().last();
        let last = last.and_then(|pipeline| pipeline.commands.as_slice().last());
        let line = "this is the foreground, and it writes to a FIFO";
        hint.point(last.and_then(place_of), "this is the foreground", line)
    }

    // Marks the command that passes a limit, and says which limit it is.
    fn add_limit(&self, hint: &mut Hint<'_>) -> io::Result<()> {
        if let Some(command) = command(self.script, 257) {
            hint.mark(place_of(command), "this is command 257")?;
            return hint.repair("a script has at most 256 commands");
        }
        for number in 1..=256 {
            let Some(command) = command(self.script, number) else {
                break;
            };
            let count = match FilterSpec::read(hint.alloc, command.words.as_slice()) {
                Ok(spec) => spec.operand_count(),
                Err(_) => 0,
            };
            if count > 32 {
                hint.mark(place_of(command), "this command has too many operands")?;
                return add_operands(count, hint);
            }
        }
        hint.point(None, "", "a script has at most 1024 pipes")?;
        hint.advise("a script has at most 1024 pipes")
    }
}

// Marks the place of a use.
fn mark(found: &Use<'_>, hint: &mut Hint<'_>) -> io::Result<()> {
    let verb = if found.writes { "written" } else { "read" };
    hint.mark_use(Some(found.place), found.name, verb)
}

// Adds that a command has this many operands, and what to do.
fn add_operands(count: usize, hint: &mut Hint<'_>) -> io::Result<()> {
    let limit = format!(in hint.alloc;
        "a command has at most 32 operands, and this one has {count}"
    )?;
    hint.repair(limit.as_str())?;
    hint.advise("let the system's cat join the files: cat part-* | plrun -c '..'")
}
