// Hints for commands whose words mean nothing.
use crate::hint::Hint;
use crate::options::add_option;
use crate::refused::RefusedWords;
use crate::shell::instead_of_shell;
use crate::utilities::{is_of_shell, is_program, is_runner, near, utility_named};
use crate::wrong::add_wrong;
use command_words::{ArgFault, BadWords, Word};
use run_types::Escaped;
use std::io;

// Adds the hint for a command whose words mean nothing.
pub(crate) fn add_command_fault(
    words: &[Word],
    bad: &BadWords,
    hint: &mut Hint<'_>,
) -> io::Result<()> {
    let name = match words.first() {
        Some(name) if bad.fault() != ArgFault::NoMemory => name,
        _ => return hint.point(None, "", "memory was refused"),
    };
    let Some(utility) = utility_named(name.bytes()) else {
        let line = format!(in hint.alloc; "there is no utility {} here", Escaped(name.bytes()))?;
        hint.point(name.place(), "there is no such utility here", line.as_str())?;
        return add_instead(name.bytes(), hint);
    };
    let refused = RefusedWords::read(hint.alloc, utility, words, bad)?;
    match bad.fault() {
        ArgFault::UnknownOption => add_option(&refused, hint),
        _ => add_wrong(&refused, hint),
    }
}

// Adds what to do instead of calling the utility of this name.
fn add_instead(name: &[u8], hint: &mut Hint<'_>) -> io::Result<()> {
    let last = name.rsplit(|byte| *byte == b'/').next().unwrap_or(name);
    if let Some(utility) = utility_named(last) {
        let text = format!(in hint.alloc; "write {}, without its folder", utility.name)?;
        return hint.repair(text.as_str());
    }
    if is_runner(last) {
        return add_runner(last, name, hint);
    }
    if is_program(last) {
        let name = Escaped(name);
        let text = format!(in hint.alloc;
            "run {name} in the shell, before plrun or after it: {name} .. | plrun -c '..'"
        )?;
        return hint.repair(text.as_str());
    }
    if is_of_shell(last) {
        let advice = instead_of_shell(last);
        let text = format!(in hint.alloc; "{} is a shell command: {advice}", Escaped(name))?;
        return hint.repair(text.as_str());
    }
    match (last, near(name)) {
        (b"mkfifo", _) => hint.repair("mkfifo is a line of its own, before all pipelines"),
        (_, Some(utility)) => {
            let text = format!(in hint.alloc; "perhaps {} is meant", utility.name)?;
            hint.repair(text.as_str())
        }
        _ => hint.advise(
            "the utilities are cat, cut, fold, head, paste, tail, tee, tr, uniq and wc",
        ),
    }
}

// Adds how a program that runs another one runs plrun. Its options, if it has any, are two dots.
fn add_runner(last: &[u8], name: &[u8], hint: &mut Hint<'_>) -> io::Result<()> {
    let options = if matches!(last, b"time" | b"nohup") {
        ""
    } else {
        ".. "
    };
    let name = Escaped(name);
    let text = format!(in hint.alloc; "let it run plrun: {name} {options}plrun -c '..'")?;
    hint.repair(text.as_str())
}
