ghost use Rattle.std.specs.Prelude.{◌≡◌, [], ◌∷◌, MatchOption, Some, true, is_some};
ghost use Rattle.pipeline_text.specs.Grammar.{fifo_names, is_name, are_names, is_bare, makes_fifos};
ghost use Rattle.pipeline_text.specs.inner.FifoNames.{names_in};

use crate::script::{Cmd, Pipeline};
use command_words::{Word, same_bytes};
use machine::split_first;

// Whether a name does not begin with a dash.
pub(crate) fn is_name(name: &[u8]) -> bool
    ensures { result ≡ is_name name.now }
{
    !matches!(name, [b'-', ..])
}

// The first command, and those after it.
fn first_command(commands: &[Cmd]) -> Option<(&Cmd, &[Cmd])>
    ensures { MatchOption result (commands.now ≡ []) (λ p. commands.now ≡ p.0.now ∷ p.1.now) }
{
    match commands {
        [] => None,
        [command, after @ ..] => Some((command, after)),
    }
}

// The names of a `mkfifo` command, if a pipeline begins with one.
pub(crate) fn fifo_names(pipeline: &Pipeline) -> Option<&[Word]>
    ensures { names_in result ≡ fifo_names pipeline.now }
{
    if pipeline.negated {
        return None;
    }
    let (command, _) = first_command(pipeline.commands.as_slice())?;
    let (utility, names) = split_first(command.words.as_slice())?;
    if same_bytes(utility.bytes(), b"mkfifo") {
        Some(names)
    } else {
        None
    }
}

// Whether there are names, and none of them begins with a dash.
fn are_names(names: &[Word]) -> bool
    ensures { result ≡ are_names names.now }
{
    let mut rest = names;
    'names: while let Some((name, after)) = split_first(rest) {
        if !is_name(name.bytes()) {
            return false;
        }
        rest = after;
    }
    !names.is_empty()
}

// Whether it is one command with no redirection.
fn is_bare(commands: &[Cmd]) -> bool
    ensures { result ≡ is_bare commands.now }
{
    match commands {
        [command] => command.source.is_none() && command.target.is_none(),
        _ => false,
    }
}

// Whether a pipeline that begins with `mkfifo` and these names does nothing else.
pub(crate) fn makes_fifos(pipeline: &Pipeline, names: &[Word]) -> bool
    ensures { result ≡ makes_fifos pipeline.now names.now }
{
    !pipeline.background && is_bare(pipeline.commands.as_slice()) && are_names(names)
}

// The names of a `mkfifo` command.
pub(crate) fn names_of(pipeline: Pipeline) -> Vec<Word>
    requires { is_some (fifo_names pipeline) ≡ true }
    ensures { fifo_names pipeline ≡ Some result.items }
{
    let mut commands = pipeline.commands.into_vec();
    let command = commands.remove(0);
    let mut names = command.words.into_vec();
    let _utility = names.remove(0);
    names
}
