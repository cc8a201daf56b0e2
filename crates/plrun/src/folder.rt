// The folder that the names of a request are relative to.
ghost use Rattle.std.specs.Prelude.{◌≡◌, IsTrue, option_map};
ghost use Rattle.command_line.specs.Words.{bytes_of_text};
ghost use Rattle.plrun.specs.Process.{Enters};

use crate::lines::Lines;
use command_line::bytes_of_text;
use hints::words_of;
use run_types::Escaped;
use std::alloc::Global;
use std::io::{self, Write};
use std::rt::Env;
use std::str;

// Why a folder with a name that is no text cannot be entered.
const NOT_UTF_8: &str = "its name is not UTF-8";

/// What can enter a folder, to which all names of files are relative from then on (POSIX.1-2017 XSH chdir).
pub(crate) trait EntersFolder {
    ghost use Rattle.std.specs.Prelude.{List, ℕ, ◌∷◌, ◌++◌, [], OnOk, OnErr};

    /// The folders that were entered, in order.
    ghost folders: { Self → List (List ℕ) };

    /// Enters the folder at this path.
    fn enter(&mut self, path: &str) -> io::Result<()>
        ensures ok { OnOk result (folders self.new ≡ folders self.old ++ path.now ∷ []) }
        ensures failed { OnErr result (folders self.new ≡ folders self.old) };
}

/// The current folder of this process.
#[derive(Drop)]
pub(crate) struct HostFolder<R> {
    rt: R,
    alloc: Global,
    // The folders that it was.
    entered: Vec<Vec<u8>>,
}

impl<R> HostFolder<R> {
    /// It is the one that the process was given.
    pub(crate) fn new(rt: R, alloc: Global) -> HostFolder<R> {
        HostFolder {
            rt,
            alloc,
            entered: Vec::new(alloc),
        }
    }
}

impl<R: Env> EntersFolder for HostFolder<R> {
    ghost use Rattle.std.specs.Prelude.{map};

    ghost folders = { λ f. map (λ name. name.items) f.entered.items };

    fn enter(&mut self, path: &str) -> io::Result<()> {
        let name = Vec::from_slice(self.alloc, path.as_bytes())?;
        self.entered.reserve(1)?;
        self.rt.set_current_dir(path)?;
        self.entered.push_reserved(name);
        Ok(())
    }
}

/// Makes this folder the current one, if there is one, as `make -C` does. If that fails, a line says why, and false is returned. Each
/// character of its name means a byte.
pub(crate) fn entered<D: EntersFolder, E: Write>(
    to: &mut D,
    alloc: Global,
    folder: Option<&str>,
    errors: &mut Lines<E>,
) -> bool
    ensures { IsTrue result
        → Enters (option_map (λ name. bytes_of_text name.now) folder.entry) (D.folders to.old)
        (D.folders to.new) }
{
    let Some(folder) = folder else {
        return true;
    };
    let Ok(name) = bytes_of_text(alloc, folder) else {
        let _ = writeln!(errors, "plrun: error: out of memory");
        return false;
    };
    let Ok(path) = str::from_utf8(name.as_slice()) else {
        let _ = write_failure(name.as_slice(), NOT_UTF_8, errors);
        return false;
    };
    match to.enter(path) {
        Ok(()) => true,
        Err(error) => {
            let _ = write_error(alloc, name.as_slice(), error, errors);
            false
        }
    }
}

// Writes that the folder of this name cannot be entered, with the system's own words.
fn write_error<E: Write>(
    alloc: Global,
    name: &[u8],
    error: io::Error,
    errors: &mut E,
) -> io::Result<()> {
    let words = words_of(alloc, error)?;
    write_failure(name, words.as_str(), errors)
}

// Writes that the folder of this name cannot be entered, and why.
fn write_failure<E: Write>(name: &[u8], why: &str, errors: &mut E) -> io::Result<()> {
    writeln!(
        errors,
        "plrun: cannot enter the folder {}: {why}",
        Escaped(name)
    )
}
