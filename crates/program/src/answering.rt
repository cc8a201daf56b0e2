ghost use Rattle.std.specs.Prelude.{◌≡◌, ◌≤◌, ℕ, List, [], Some, None, true, false, IfOk, IfErr, OnErr, OnOk, IsTrue};
ghost use Rattle.pipeline_text.specs.Grammar.{script_of};
ghost use Rattle.graphs.specs.Graph.{IsForest};
ghost use Rattle.pipeline_text.specs.declared.script.Script.{Script as ScriptShown};
ghost use Rattle.planner.specs.Planned.{IsPlanOf, graph_of};
ghost use Rattle.collector.specs.Places.{KeepsFiles};
ghost use Rattle.run_types.specs.Placings.{is_held};
ghost use Rattle.run_types.specs.declared.placing.Placing.TheVariants as placings;
ghost use Rattle.program.specs.Outputs.{KeepsUnless, LeavesAllOrNothing, StopsRequest, StopsRun, is_atomic};
ghost use Rattle.openings.specs.Placings.{OpensPlacing};
ghost use Rattle.program.specs.Reports.{FailsOpening, IsApart, MayOpenReport, MayReport, OpensReport, report_of};
ghost use Rattle.program.specs.ScriptReads.{WritesNothing};
ghost use Rattle.program.specs.Runs.{DoesWith, EndsAs, FindsPlan, HasForm, HasPlan, IsNoShowing, IsNotRun, IsRefused, IsShardsText, IsStatusOfEnding, IsUndone, IsUnplanned, PrintsPlan, RunsText, ShowsPlan};
ghost use Rattle.program.specs.inner.Texts.{LacksText};
ghost use Rattle.shards.specs.Shards.{AreShards, HasNoShards};
ghost use Rattle.clap.specs.Walk.{texts};
ghost use Rattle.command_line.specs.declared.request.Request.TheVariants as asks;
ghost use Rattle.program.specs.declared.ending.Refusal.{Refusal as Why};

use crate::circles::circle_of;
use crate::ending::{Ending, Refusal, report_missing};
use crate::printing::{VERSION, print_codes, print_explanation, print_help, print_text};
use crate::ran::{Ran, Refused, ScriptRead, report};
use crate::report_file::{NoReport, OpensReport, check_apart, open_report, report_refusal};
use crate::script::text_from;
use collector::{Files, Readiness};
use command_line::{PlanForm, Request, ScriptFrom, ShardsForm};
use machine::NoMemory;
use network_laws::Outcome;
use openings::{Opened, open_placing};
use pipeline_text::{Script, read_script};
use plan_runs::run_plan;
use plan_texts::{
    plan_dot, plan_full, plan_json, plan_text, shards_json, shards_part, shards_text,
};
use planner::{Plan, PlanFault, make_plan};
use run_types::{Placing, Settings};
use shards::{Shards, ShardsFault, shards_of};
use std::alloc::Global;
use std::io::Write;
use std::marker::Sync;
use std::sync::Wait;
use std::thread::Threads;
use workers::Gate;

/// The whole program, over any files: carries out the request of the words, and returns the exit status. Each option of the words has its
/// value, the program's name comes first, and each character is that of a byte (`text_of_bytes` of command_line).
///
/// The status is 0 or 1 if the script was run, or if its plan, the help, the version or the meaning of a code was printed; 2 if nothing was
/// run; 3 if the run stalled; and 4 if it could not go on. Workers pass the gate. It waits for them, and its promise holds if it returns.
///
/// The lines of faults are written to `errors`. It is flushed before a script runs, when it has a line for each operand that
/// cannot be opened. No statistics are written, and words that name a file for them are refused.
pub fn command<R: Threads + Wait + Sync, F: Readiness, G: Gate, E: Write>(
    rt: &R,
    alloc: Global,
    words: &[&str],
    files: &mut F,
    gate: &G,
    errors: &mut E,
) -> u8
    ensures statuses { result ≤ 4 }
    ensures refused { result ≡ 2 → WritesNothing (F.shows files.old) (F.shows files.new) }
    ensures cause { result ≡ 2
        → (why : Why)
        × IsRefused F.contents_known (texts words.now) (F.shows files.old) (F.shows files.new) why }
    ensures ended { IsStatusOfEnding F.contents_known (texts words.now) (F.shows files.old)
        (F.shows files.new) result }
    ensures all_or_nothing { IsTrue F.contents_known
        → LeavesAllOrNothing (texts words.now) (F.shows files.old) (F.shows files.new) result }
{
    match Request::read(alloc, words) {
        Ok(request) => {
            let came_to = answer(rt, alloc, request, files, gate, &mut NoReport, errors);
            report(alloc, &came_to, errors)
        }
        Err(misuse) => report(alloc, &Err(Refused::from(Refusal::from(misuse))), errors),
    }
}

/// Carries out a request, and returns how that ended, with the script, its plan and the statistics; or why it was refused. Workers
/// pass the gate. It waits for them, and its promise holds if it returns.
///
/// The lines of operands that cannot be opened are written to `errors` before a script runs, and it is flushed. `report` writes all others.
/// The file that the request names for the statistics is opened before a script runs, and after a refusal if it is none of the files that are
/// known. The caller writes it.
pub fn answer<'a, R: Threads + Wait + Sync, F: Readiness, G: Gate, P: OpensReport<F>, E: Write>(
    rt: &R,
    alloc: Global,
    request: Request<'a>,
    files: &mut F,
    gate: &G,
    file: &mut P,
    errors: &mut E,
) -> Result<Ran, Refused<'a>>
    ensures ended { IfOk result
        (λ ran. DoesWith F.contents_known request.entry ran.read.plan (F.shows files.old)
        (F.shows files.new) ran.ending) }
    ensures cause { IfErr result
        (λ refused. IsUndone F.contents_known request.entry (F.shows files.old) (F.shows files.new)
        refused.why) }
    ensures kept { OnErr result (WritesNothing (F.shows files.old) (F.shows files.new)) }
    ensures all_or_nothing { IsTrue F.contents_known → is_atomic request.entry ≡ true
        → IfOk result
        (λ ran. KeepsUnless (StopsRequest request.entry (F.shows files.old) (F.shows files.new))
        (F.shows files.old) (F.shows files.new) ran.ending) }
    ensures left { is_atomic request.entry ≡ true
        → OnErr result (KeepsFiles (F.shows files.old) (F.shows files.new)) }
    ensures reports { OnOk result
        (OpensReport (report_of request.entry) (P.opened file.old) (P.opened file.new)) }
    ensures may_report { IfErr result
        (λ refused. MayReport request.entry refused.read.plan (P.opened file.old)
        (P.opened file.new)) }
{
    match request {
        Request::Help(help) => Ok(Ran::from(print_help(alloc, &help, files)?)),
        Request::Version => Ok(Ran::from(print_text(VERSION.as_bytes(), files)?)),
        Request::Explain {
            code: _,
            explanation,
        } => Ok(Ran::from(print_explanation(alloc, explanation, files)?)),
        Request::Codes => Ok(Ran::from(print_codes(alloc, files)?)),
        Request::Plan {
            script,
            form: Some(form),
            placing,
            ..
        } => print_plan_from(alloc, script, form, placing, files),
        Request::Plan {
            script,
            form: None,
            ..
        } => find_plan(alloc, script, files),
        Request::Run {
            script,
            settings,
            strict,
            placing,
            stats_to,
            ..
        } => run(
            rt, alloc, script, settings, strict, placing, stats_to, files, gate, file, errors,
        ),
    }
}

// A script that has a plan.
#[derive(Drop)]
struct PlannedScript {
    text: Vec<u8>,
    script: Script,
    plan: Plan,
}

impl PlannedScript {
    // What was read of it.
    fn read(self) -> ScriptRead
        ensures { result.plan ≡ Some self.plan }
    {
        ScriptRead {
            text: Some(self.text),
            script: Some(self.script),
            plan: Some(self.plan),
        }
    }

    // It was refused.
    fn refused<'a>(self, why: Refusal<'a>) -> Refused<'a>
        ensures { result.why ≡ why.entry }
    {
        Refused {
            why,
            read: self.read(),
        }
    }

    // What was asked of it ended so, and it was not run.
    fn ended(self, ending: Ending) -> Ran
        ensures ending { result.ending ≡ ending }
        ensures plan { result.read.plan ≡ Some self.plan }
    {
        Ran {
            ending,
            read: self.read(),
            opened: None,
            statistics: None,
        }
    }
}

// The script of a text, and its plan.
fn plan_of<'a>(alloc: Global, text: Vec<u8>) -> Result<PlannedScript, Refused<'a>>
    ensures plan { IfOk result (λ found. HasPlan text.items found.plan) }
    ensures script { IfOk result
        (λ found. (script_of text.items ≡ Some found.script) × IsPlanOf found.script found.plan) }
    ensures forest { IfOk result
        (λ found. (parsed : ScriptShown) → script_of text.items ≡ Some parsed → parsed.fifos ≡ []
        → IsForest (graph_of found.plan)) }
    ensures cause { IfErr result (λ refused. IsUnplanned text.items refused.why) }
{
    let script = match read_script(alloc, text.as_slice()) {
        Ok(script) => script,
        Err(fault) => return Err(no_script(text, None, Refusal::from(fault))),
    };
    match make_plan(alloc, &script) {
        Ok(plan) => Ok(PlannedScript { text, script, plan }),
        Err(fault) => Err(no_script(text, Some(script), Refusal::from(fault))),
    }
}

// A text that is no script, or a script without a plan.
fn no_script<'a>(text: Vec<u8>, script: Option<Script>, why: Refusal<'a>) -> Refused<'a>
    ensures { result.why ≡ why.entry }
{
    Refused {
        why,
        read: ScriptRead {
            text: Some(text),
            script,
            plan: None,
        },
    }
}

// Prints the plan of a script.
fn print_plan_from<'a, F: Files>(
    alloc: Global,
    script: ScriptFrom<'a>,
    form: PlanForm,
    placing: Placing,
    files: &mut F,
) -> Result<Ran, Refused<'a>>
    ensures ok { IfOk result (λ ran. PrintsPlan F.contents_known form script.entry ran.read.plan
        (F.shows files.old) (F.shows files.new) ran.ending) }
    ensures cause { IfErr result
        (λ refused. IsUndone F.contents_known (asks.Plan script.entry (Some form) false placing None None)
        (F.shows files.old) (F.shows files.new) refused.why) }
    ensures kept { OnErr result (WritesNothing (F.shows files.old) (F.shows files.new)) }
{
    let text = text_from(alloc, script, files)?;
    print_plan(alloc, text, form, placing, files)
}

// Finds out whether a script has a plan.
fn find_plan<'a, F: Files>(
    alloc: Global,
    script: ScriptFrom<'a>,
    files: &mut F,
) -> Result<Ran, Refused<'a>>
    ensures ok { IfOk result (λ ran. FindsPlan script.entry ran.read.plan (F.shows files.old)
        (F.shows files.new) ran.ending) }
    ensures cause { IfErr result
        (λ refused. IsUndone F.contents_known (asks.Plan script.entry None false placings.AsWritten None None)
        (F.shows files.old) (F.shows files.new) refused.why) }
    ensures kept { WritesNothing (F.shows files.old) (F.shows files.new) }
{
    let text = text_from(alloc, script, files)?;
    let found = plan_of(alloc, text)?;
    Ok(found.ended(Ending::Done { succeeded: true }))
}

// What is printed of the plan of a script.
fn text_of<'a>(
    alloc: Global,
    script: &Script,
    plan: &Plan,
    form: PlanForm,
    placing: Placing,
) -> Result<Vec<u8>, Refusal<'a>>
    ensures has { IfOk result (λ text. HasForm plan.now form text.items) }
    ensures cause { IfErr result (LacksText form script.now plan.now) }
{
    match form {
        PlanForm::Lines => printed(plan_text(alloc, plan)),
        PlanForm::Full => printed(plan_full(alloc, script, plan, placing)),
        PlanForm::Json => printed(plan_json(alloc, script, plan)),
        PlanForm::Dot => printed(plan_dot(alloc, script, plan)),
        PlanForm::Shards(shards) => match text_of_shards(alloc, script, plan, shards) {
            Ok(text) => Ok(text),
            Err(fault) => Err(Refusal::Shards(fault)),
        },
    }
}

// The text of a plan, or that memory was refused for it.
fn printed<'a>(text: Result<Vec<u8>, NoMemory>) -> Result<Vec<u8>, Refusal<'a>>
    ensures { IfErr result (λ why. why ≡ Refusal.Plan PlanFault.NoMemory) }
{
    match text {
        Ok(text) => Ok(text),
        Err(NoMemory) => Err(Refusal::Plan(PlanFault::NoMemory)),
    }
}

// What is printed of the shards of a script, which has this plan.
fn text_of_shards(
    alloc: Global,
    script: &Script,
    plan: &Plan,
    form: ShardsForm,
) -> Result<Vec<u8>, ShardsFault>
    ensures has { IfOk result
        (λ text. (map_text combine_text : List ℕ) × AreShards plan.now map_text combine_text
        × IsShardsText form map_text combine_text text.items) }
    ensures cause { IfErr result (HasNoShards script.now plan.now) }
{
    let shards = shards_of(alloc, script, plan)?;
    Ok(text_in(alloc, &shards, form)?)
}

// The text of shards in a form.
fn text_in(alloc: Global, shards: &Shards, form: ShardsForm) -> Result<Vec<u8>, NoMemory>
    ensures { IfOk result
        (λ text. IsShardsText form shards.now.map.items shards.now.combine.items text.items) }
{
    match form {
        ShardsForm::Lines => shards_text(alloc, shards),
        ShardsForm::Map => shards_part(alloc, shards.map.as_slice()),
        ShardsForm::Combine => shards_part(alloc, shards.combine.as_slice()),
        ShardsForm::Json => shards_json(alloc, shards),
    }
}

// Prints the plan of the script of a text.
fn print_plan<'a, F: Files>(
    alloc: Global,
    text: Vec<u8>,
    form: PlanForm,
    placing: Placing,
    files: &mut F,
) -> Result<Ran, Refused<'a>>
    ensures ok { IfOk result (λ ran. ShowsPlan F.contents_known form text.items ran.read.plan
        (F.shows files.old) (F.shows files.new) ran.ending) }
    ensures cause { IfErr result (λ refused. IsNoShowing form text.items (F.shows files.old)
        (F.shows files.new) refused.why) }
    ensures kept { OnErr result (WritesNothing (F.shows files.old) (F.shows files.new)) }
{
    let planned = plan_of(alloc, text)?;
    let shown = match text_of(alloc, &planned.script, &planned.plan, form, placing) {
        Ok(shown) => shown,
        Err(why) => return Err(planned.refused(why)),
    };
    match print_text(shown.as_slice(), files) {
        Ok(ending) => Ok(planned.ended(ending)),
        Err(why) => Err(planned.refused(why)),
    }
}

// Runs a script, and opens the file of its statistics, if one is named: before the run, or after a refusal if it is none of the files that are
// known.
fn run<'a, R: Threads + Wait + Sync, F: Readiness, G: Gate, P: OpensReport<F>, E: Write>(
    rt: &R,
    alloc: Global,
    script: ScriptFrom<'a>,
    settings: Settings,
    strict: bool,
    placing: Placing,
    stats_to: Option<&'a str>,
    files: &mut F,
    gate: &G,
    file: &mut P,
    errors: &mut E,
) -> Result<Ran, Refused<'a>>
    ensures ended { IfOk result
        (λ ran. RunsText F.contents_known script.entry settings strict placing stats_to.entry
        (F.shows files.old) (F.shows files.new) ran.ending) }
    ensures cause { IfErr result
        (λ refused. IsNotRun F.contents_known script.entry strict placing stats_to.entry
        (F.shows files.old) (F.shows files.new) refused.why) }
    ensures kept { OnErr result (WritesNothing (F.shows files.old) (F.shows files.new)) }
    ensures all_or_nothing { IsTrue F.contents_known → is_held placing ≡ true
        → IfOk result
        (λ ran. KeepsUnless (StopsRun script.entry (F.shows files.old) (F.shows files.new))
        (F.shows files.old) (F.shows files.new) ran.ending) }
    ensures left { is_held placing ≡ true
        → OnErr result (KeepsFiles (F.shows files.old) (F.shows files.new)) }
    ensures reports { OnOk result
        (OpensReport stats_to.entry (P.opened file.old) (P.opened file.new)) }
    ensures may_report { IfErr result
        (λ refused. MayOpenReport stats_to.entry script.entry refused.read.plan
        (P.opened file.old) (P.opened file.new)) }
{
    match run_script(
        rt, alloc, script, settings, strict, placing, stats_to, files, gate, file, errors,
    ) {
        Ok(ran) => Ok(ran),
        Err(refused) => {
            report_refusal(alloc, stats_to, script, placing, &refused, files, file);
            Err(refused)
        }
    }
}

// Runs a script: opens the files of its plan, strictly or not, and then that of its statistics, if one is named, and runs the plan. Outputs get
// what is written as `placing` says.
fn run_script<'a, R: Threads + Wait + Sync, F: Readiness, G: Gate, P: OpensReport<F>, E: Write>(
    rt: &R,
    alloc: Global,
    script: ScriptFrom<'a>,
    settings: Settings,
    strict: bool,
    placing: Placing,
    stats_to: Option<&'a str>,
    files: &mut F,
    gate: &G,
    file: &mut P,
    errors: &mut E,
) -> Result<Ran, Refused<'a>>
    ensures ended { IfOk result
        (λ ran. RunsText F.contents_known script.entry settings strict placing stats_to.entry
        (F.shows files.old) (F.shows files.new) ran.ending) }
    ensures cause { IfErr result
        (λ refused. IsNotRun F.contents_known script.entry strict placing stats_to.entry
        (F.shows files.old) (F.shows files.new) refused.why) }
    ensures kept { OnErr result (WritesNothing (F.shows files.old) (F.shows files.new)) }
    ensures all_or_nothing { IsTrue F.contents_known → is_held placing ≡ true
        → IfOk result
        (λ ran. KeepsUnless (StopsRun script.entry (F.shows files.old) (F.shows files.new))
        (F.shows files.old) (F.shows files.new) ran.ending) }
    ensures left { is_held placing ≡ true
        → OnErr result (KeepsFiles (F.shows files.old) (F.shows files.new)) }
    ensures reports { OnOk result
        (OpensReport stats_to.entry (P.opened file.old) (P.opened file.new)) }
    ensures reports_nothing { OnErr result (P.opened file.new ≡ P.opened file.old) }
{
    let text = text_from(alloc, script, files)?;
    let planned = plan_of(alloc, text)?;
    let opened = match open_files(
        alloc,
        script,
        &planned.plan,
        strict,
        placing,
        stats_to,
        files,
        file,
    ) {
        Ok(opened) => opened,
        Err(why) => return Err(planned.refused(why)),
    };
    report_missing(&planned.plan, &opened, errors);
    let _ = errors.flush();
    let fitted = settings.for_pipes(planned.plan.pipes().len());
    let ran = run_plan(rt, alloc, &planned.plan, &opened, files, fitted, gate);
    let ending = ending_of(alloc, &planned.plan, ran.outcome);
    Ok(Ran {
        ending,
        read: planned.read(),
        opened: Some(opened),
        statistics: Some(ran.statistics),
    })
}

// Opens the files of a plan, strictly or not, and then that of the statistics, if one is named. That is refused before any is opened if it is the
// file of the script or one of the plan.
fn open_files<'a, F: Files, P: OpensReport<F>>(
    alloc: Global,
    script: ScriptFrom<'_>,
    plan: &Plan,
    strict: bool,
    placing: Placing,
    stats_to: Option<&'a str>,
    files: &mut F,
    file: &mut P,
) -> Result<Opened, Refusal<'a>>
    ensures opens { IfOk result
        (OpensPlacing F.contents_known strict placing plan.now (F.shows files.old)
        (F.shows files.new)) }
    ensures apart { OnOk result (IsApart stats_to.entry script.entry plan.now) }
    ensures cause { IfErr result
        (FailsOpening F.contents_known script.entry strict placing stats_to.entry plan.now
        (F.shows files.old) (F.shows files.new)) }
    ensures kept { OnErr result
        (is_held placing ≡ true → KeepsFiles (F.shows files.old) (F.shows files.new)) }
    ensures written { WritesNothing (F.shows files.old) (F.shows files.new) }
    ensures reports { OnOk result
        (OpensReport stats_to.entry (P.opened file.old) (P.opened file.new)) }
    ensures reports_nothing { OnErr result (P.opened file.new ≡ P.opened file.old) }
{
    if let Err(why) = check_apart(alloc, stats_to, script, plan) {
        return Err(why);
    }
    let opened = match open_placing(alloc, plan, strict, placing, files) {
        Ok(opened) => opened,
        Err(fault) => return Err(Refusal::Opening(fault)),
    };
    match open_report(alloc, stats_to, placing, plan, files, file) {
        Ok(()) => Ok(opened),
        Err(why) => {
            files.leave_outputs();
            Err(why)
        }
    }
}

// The ending of the program if the run of this plan came to this.
fn ending_of(alloc: Global, plan: &Plan, outcome: Outcome) -> Ending
    ensures { EndsAs outcome result }
{
    match outcome {
        Outcome::Finished { status } => Ending::Done {
            succeeded: status == 0,
        },
        Outcome::Stalled { waits } => {
            let circle = circle_of(alloc, plan, waits.as_slice());
            Ending::Stalled { waits, circle }
        }
        Outcome::Faulted { fault } => Ending::Faulted(fault),
    }
}
