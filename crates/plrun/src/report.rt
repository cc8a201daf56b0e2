// The file of the statistics of a run, among the files of the system.
use collector::NotOpened;
use file_stores::{
    Disk, HostFiles, HostHandle, HostReader, ReportFile, Watch, Watched, is_one_place,
};
use planner::Plan;
use program::{OpensReport, Report};
use run_types::{InName, OutName, Placing};
use std::alloc::Global;
use std::io::{self, ErrorKind};
use std::str;
use waiting_inputs::Inputs;

/// The file of the statistics of a run, among the files of the system.
#[derive(Drop)]
pub(crate) struct HostReport<R: HostHandle> {
    rt: R,
    alloc: Global,
    // None if it is not open, or was written.
    file: Option<ReportFile<R>>,
    // The names that it was opened by.
    names: Vec<Vec<u8>>,
    // Whether the last write of it failed.
    failed: bool,
}

impl<R: HostHandle> HostReport<R> {
    /// It is not open.
    pub(crate) fn new(rt: R, alloc: Global) -> HostReport<R> {
        HostReport {
            rt,
            alloc,
            file: None,
            names: Vec::new(alloc),
            failed: false,
        }
    }
}

impl<R: HostHandle> Report for HostReport<R> {
    ghost use Rattle.std.specs.Prelude.{map};

    ghost opened = { λ r. map (λ name. name.items) r.names.items };

    ghost failed = { λ r. r.failed };

    fn write(&mut self, text: &[u8]) -> io::Result<()> {
        self.failed = false;
        let Some(file) = self.file.take() else {
            return Ok(());
        };
        match file.write(&self.rt, text) {
            Ok(()) => Ok(()),
            Err(number) => {
                self.failed = true;
                Err(error_of(number))
            }
        }
    }
}

// The error of this number.
fn error_of(number: Option<i32>) -> io::Error {
    match number {
        Some(number) => io::Error::from_raw_os_error(number),
        None => io::Error::from(ErrorKind::Other),
    }
}

impl<R: HostHandle, I: Inputs<HostReader<R>>, D: Disk, W: Watch> OpensReport<
    Watched<HostFiles<R, I, D>, W>,
> for HostReport<R> {
    fn open(
        &mut self,
        name: &[u8],
        placing: Placing,
        plan: Option<&Plan>,
        files: &Watched<HostFiles<R, I, D>, W>,
    ) -> Result<(), NotOpened> {
        let copy = Vec::from_slice(self.alloc, name)?;
        self.names.reserve(1)?;
        let Ok(path) = str::from_utf8(name) else {
            return Err(NotOpened::Refused);
        };
        if is_of(&self.rt, path, plan) {
            return Err(NotOpened::Refused);
        }
        self.file = Some(files.inside().open_report(path, placing)?);
        self.names.push_reserved(copy);
        Ok(())
    }
}

// Whether the file at this path is one of the plan under any name, as far as the system says.
fn is_of<R: HostHandle>(rt: &R, path: &str, plan: Option<&Plan>) -> bool {
    match plan {
        Some(plan) => {
            plan.inputs()
                .iter()
                .any(|opening| is_input(rt, path, &opening.name))
                || plan
                    .outputs()
                    .iter()
                    .any(|opening| is_output(rt, path, &opening.name))
        }
        None => false,
    }
}

// Whether it is this input.
fn is_input<R: HostHandle>(rt: &R, path: &str, name: &InName) -> bool {
    match name {
        InName::Standard => false,
        InName::File(name) => is_at(rt, path, name.bytes()),
    }
}

// Whether it is this output.
fn is_output<R: HostHandle>(rt: &R, path: &str, name: &OutName) -> bool {
    match name {
        OutName::Standard => false,
        OutName::File { name, .. } => is_at(rt, path, name.bytes()),
    }
}

// Whether it is the file of this name.
fn is_at<R: HostHandle>(rt: &R, path: &str, name: &[u8]) -> bool {
    match str::from_utf8(name) {
        Ok(name) => is_one_place(rt, path, name),
        Err(_) => false,
    }
}
