// Looks at the files of a script, for `--check`.
ghost use Rattle.std.specs.Prelude.{◌≡◌, [], ◌&&◌, not, map, Some, None, OnOk, IfOk};
ghost use Rattle.planner.specs.declared.plan.InOpening.{InOpening as InShown};
ghost use Rattle.planner.specs.declared.plan.OutOpening.{OutOpening as OutShown};
ghost use Rattle.plrun.specs.Looks as is;
ghost use Rattle.plrun.specs.Looks.{checked_files, found_status, is_report_taken, report_file};
ghost use Rattle.plrun.specs.inner.Seen.{GoesThrough, all_kept_open};

use command_line::{ScriptFrom, bytes_of_text};
use command_words::Word;
use file_stores::HostLook;
use machine::NoMemory;
use planner::{InOpening, OutOpening, Plan};
use program::{EXIT_REFUSED, is_taken};
use run_types::{InName, OutName, Placing};
use std::alloc::Global;

/// What `--check` asks for: a look at the files of this script, whose outputs would get what is written to them as `placing` says, and at the
/// file of this name for the statistics.
#[derive(Clone, Copy)]
pub(crate) struct AskedCheck<'a> {
    pub(crate) script: ScriptFrom<'a>,
    pub(crate) placing: Placing,
    pub(crate) report: Option<&'a str>,
}

/// The result of a look at the files of a script.
#[derive(Clone, Copy)]
pub(crate) enum Found {
    /// Each can be opened.
    All,
    /// One cannot be opened, or that of the statistics is one of the others.
    NotAll,
    /// Memory is refused.
    NoMemory,
}

impl Found {
    /// The exit status, if it is this one without the look.
    pub(crate) fn status(self, told: u8) -> u8
        ensures { result ≡ found_status self told }
    {
        match self {
            Found::All => told,
            Found::NotAll | Found::NoMemory => EXIT_REFUSED,
        }
    }
}

/// What can tell whether a file can be opened, without a change of any file.
pub(crate) trait LooksAtFiles {
    ghost use Rattle.std.specs.Prelude.{Option, List, IfOk, [], ◌∷◌};
    ghost use Rattle.plrun.specs.Looks.{AddsLooks, Look, look_at};
    ghost use Rattle.plrun.specs.Looks as is;

    /// The looks that were made, if they are known.
    ghost looks: { Self → Option (List Look) };

    /// The script is in this file, so no output may be it.
    fn note_script(&mut self, name: &InName) -> Result<(), NoMemory>
        ensures { looks self.new ≡ looks self.old };

    /// Whether this input can be opened now.
    fn opens_input(&mut self, name: &InName) -> Result<bool, NoMemory>
        ensures { IfOk result (λ opens. AddsLooks (looks self.old)
            (look_at (is.Input name.now) opens ∷ []) (looks self.new)) };

    /// Whether this output can be opened now. It would get what is written to it as `placing` says.
    fn opens_output(&mut self, name: &OutName, placing: Placing) -> Result<bool, NoMemory>
        ensures { IfOk result (λ opens. AddsLooks (looks self.old)
            (look_at (is.Output name.now placing) opens ∷ []) (looks self.new)) };
}

impl LooksAtFiles for HostLook<HostRuntime> {
    ghost looks = { λ _. None };

    fn note_script(&mut self, name: &InName) -> Result<(), NoMemory> {
        self.is_input(name)?;
        Ok(())
    }

    fn opens_input(&mut self, name: &InName) -> Result<bool, NoMemory> {
        self.is_input(name)
    }

    fn opens_output(&mut self, name: &OutName, placing: Placing) -> Result<bool, NoMemory> {
        self.is_output(name, placing)
    }
}

/// A file that a run would open, and when an output would get what is written to it.
#[derive(Clone, Copy)]
pub(crate) enum LookedAt<'a> {
    Input(&'a InOpening),
    Output(&'a OutOpening, Placing),
    /// The file for the statistics: its name, whose characters mean bytes.
    Report(&'a str, Placing),
}

/// A look at a file: whether it can be opened now.
#[derive(Clone, Copy)]
pub(crate) struct KeptLook<'a> {
    pub(crate) file: LookedAt<'a>,
    pub(crate) opens: bool,
}

/// The looks at the files of a script.
#[derive(Drop)]
pub(crate) struct Looks<'a> {
    pub(crate) kept: Vec<KeptLook<'a>>,
    /// Whether the file of the statistics is that of the script, or one of its plan.
    pub(crate) is_taken: bool,
}

impl<'a> Looks<'a> {
    /// Looks at the files of this plan, and at that of the statistics, if one is named.
    pub(crate) fn through<L: LooksAtFiles>(
        alloc: Global,
        look: &mut L,
        asked: AskedCheck<'a>,
        plan: &'a Plan,
    ) -> Result<Looks<'a>, NoMemory>
        ensures through { IfOk result (λ looks. GoesThrough (checked_files asked.entry plan.now) []
            looks.kept.items (L.looks look.old) (L.looks look.new)) }
        ensures taken { IfOk result
            (λ looks. looks.is_taken ≡ is_report_taken asked.entry.report asked.entry.script plan.now) }
    {
        let mut kept = Vec::new(alloc);
        look_at_inputs(look, plan.inputs(), &mut kept)?;
        look_at_outputs(look, asked.placing, plan.outputs(), &mut kept)?;
        let is_taken = match asked.report {
            Some(name) => {
                note_script(alloc, look, asked.script)?;
                look_at_report(alloc, look, asked.placing, name, &mut kept)?;
                is_taken(alloc, name, asked.script, plan)?
            }
            None => false,
        };
        Ok(Looks { kept, is_taken })
    }

    /// Whether each can be opened, and that of the statistics is none of the others.
    pub(crate) fn all_open(&self) -> bool
        ensures { result ≡ (all_kept_open self.now.kept.items && not self.now.is_taken) }
    {
        !self.is_taken && opens_all(self.kept.as_slice())
    }

    /// Whether the file of this look fails.
    pub(crate) fn fails(&self, look: &KeptLook<'_>) -> bool {
        match look.file {
            LookedAt::Report(..) if self.is_taken => true,
            _ => !look.opens,
        }
    }
}

// Whether each file can be opened.
fn opens_all(kept: &[KeptLook<'_>]) -> bool
    ensures { result ≡ all_kept_open kept.now }
{
    kept.iter().all(|look| look.opens)
}

// Looks at the inputs of a plan.
fn look_at_inputs<'a, L: LooksAtFiles>(
    look: &mut L,
    openings: &'a [InOpening],
    kept: &mut Vec<KeptLook<'a>>,
) -> Result<(), NoMemory>
    ensures { OnOk result (GoesThrough (map (λ (o : InShown). is.Input o.name) openings.now)
        kept.old.items kept.new.items (L.looks look.old) (L.looks look.new)) }
{
    for opening in openings {
        let opens = look.opens_input(&opening.name)?;
        let file = LookedAt::Input(opening);
        kept.push(KeptLook { file, opens })?;
    }
    Ok(())
}

// Looks at the outputs of a plan, which would get what is written to them as `placing` says.
fn look_at_outputs<'a, L: LooksAtFiles>(
    look: &mut L,
    placing: Placing,
    openings: &'a [OutOpening],
    kept: &mut Vec<KeptLook<'a>>,
) -> Result<(), NoMemory>
    ensures { OnOk result (GoesThrough (map (λ (o : OutShown). is.Output o.name placing) openings.now)
        kept.old.items kept.new.items (L.looks look.old) (L.looks look.new)) }
{
    for opening in openings {
        let opens = look.opens_output(&opening.name, placing)?;
        let file = LookedAt::Output(opening, placing);
        kept.push(KeptLook { file, opens })?;
    }
    Ok(())
}

// Notes the file that a script is in.
fn note_script<L: LooksAtFiles>(
    alloc: Global,
    look: &mut L,
    script: ScriptFrom<'_>,
) -> Result<(), NoMemory>
    ensures { L.looks look.new ≡ L.looks look.old }
{
    match script {
        ScriptFrom::Text(_) => Ok(()),
        ScriptFrom::File(file) => {
            let name = InName::File(Word::from_vec(bytes_of_text(alloc, file)?));
            look.note_script(&name)
        }
    }
}

// Looks at the file of the statistics.
fn look_at_report<'a, L: LooksAtFiles>(
    alloc: Global,
    look: &mut L,
    placing: Placing,
    name: &'a str,
    kept: &mut Vec<KeptLook<'a>>,
) -> Result<(), NoMemory>
    ensures { OnOk result (GoesThrough (report_file placing (Some name.entry)) kept.old.items
        kept.new.items (L.looks look.old) (L.looks look.new)) }
{
    let output = OutName::File {
        name: Word::from_vec(bytes_of_text(alloc, name)?),
        append: false,
    };
    let opens = look.opens_output(&output, placing)?;
    let file = LookedAt::Report(name, placing);
    kept.push(KeptLook { file, opens })?;
    Ok(())
}
