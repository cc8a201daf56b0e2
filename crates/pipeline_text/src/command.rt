ghost use Rattle.std.specs.Prelude.{◌≡◌, ◌≢◌, ◌↔◌, [], true, IsTrue, IfOk};
ghost use Rattle.std.specs.Bool.{OnFalse};
ghost use Rattle.pipeline_text.specs.Grammar.{nothing, begins_well, may_begin, is_reserved};
ghost use Rattle.command_words.specs.Texts.{same_bytes};
ghost use Rattle.pipeline_text.specs.inner.Additions.{has, with_word, with_first_word, with_redirection};

use crate::script::{Cmd, Target};
use crate::token::{Look, Redirection};
use command_words::{Sequence, Word, same_bytes};
use machine::NoMemory;
use std::alloc::Global;
use std::marker::Model;

/// What may come next.
#[derive(Clone, Copy, Debug, PartialEq, Eq)]
pub enum Expected {
    /// A pipeline, or the text's end.
    Pipeline,
    /// A command after `|`.
    Command,
    /// The rest of a command.
    Rest,
}

// A command, with what matters of it in its place. Contracts see the grammar's record of it.
#[derive(Drop)]
pub(crate) struct SimpleCommand {
    // Whether `!` comes before it.
    negated: bool,
    // What its first word looks like.
    look: Look,
    cmd: Cmd,
}

impl Model for SimpleCommand {
    ghost use Rattle.std.specs.Prelude.{◌≡◌, true};
    ghost use Rattle.pipeline_text.specs.SimpleCommands as simple;

    ghost Value = { simple.SimpleCommand };

    ghost use Rattle.pipeline_text.specs.inner.Additions.{begins_or_not};

    ghost view = { λ c. record { negated = c.negated; look = c.look; cmd = c.cmd } };

    ghost invariant = { λ c. begins_or_not c.look c.cmd.words ≡ true };
}

impl SimpleCommand {
    // A command before any token of it was read.
    pub(crate) fn new(alloc: Global) -> SimpleCommand
        ensures { result ≡ nothing }
    {
        SimpleCommand {
            negated: false,
            look: Look::PartlyQuoted,
            cmd: Cmd {
                words: Sequence::new(alloc),
                source: None,
                target: None,
            },
        }
    }

    // Whether `!` comes before it.
    pub(crate) fn is_negated(&self) -> bool
        ensures { result ≡ self.now.negated }
    {
        self.negated
    }

    // Its words and its redirections.
    pub(crate) fn into_cmd(self) -> Cmd
        ensures { result ≡ self.cmd }
    {
        self.cmd
    }

    // Whether it has no word yet.
    pub(crate) fn has_no_words(&self) -> bool
        ensures none { IsTrue result ↔ (self.now.cmd.words ≡ []) }
        ensures begins { OnFalse result (begins_well self.now.look self.now.cmd.words ≡ true) }
    {
        self.cmd.words.is_empty()
    }

    // Whether it has a redirection of this kind.
    pub(crate) fn has(&self, redirection: Redirection) -> bool
        ensures { result ≡ has self.now redirection }
    {
        match redirection {
            Redirection::Input => self.cmd.source.is_some(),
            Redirection::Output => self.cmd.target.is_some(),
            Redirection::Append => self.cmd.target.is_some(),
        }
    }
}

impl SimpleCommand {
    // The command with `!` before it.
    pub(crate) fn with_bang(self) -> SimpleCommand
        ensures { result ≡ record self { negated = true } }
    {
        SimpleCommand {
            negated: true,
            look: self.look,
            cmd: self.cmd,
        }
    }

    // The command with its first word, which it may begin with.
    pub(crate) fn with_first_word(self, name: Word, look: Look) -> Result<SimpleCommand, NoMemory>
        requires first { self.cmd.words ≡ [] }
        requires begins { may_begin look name ≡ true }
        ensures { IfOk result (λ command. command ≡ with_first_word self name look) }
    {
        let SimpleCommand {
            negated,
            mut cmd,
            ..
        } = self;
        cmd.words.push(name)?;
        Ok(SimpleCommand { negated, look, cmd })
    }

    // The command with one more word after the others.
    pub(crate) fn with_word(self, name: Word) -> Result<SimpleCommand, NoMemory>
        requires { self.cmd.words ≢ [] }
        ensures { IfOk result (λ command. command ≡ with_word self name) }
    {
        let SimpleCommand {
            negated,
            look,
            mut cmd,
        } = self;
        cmd.words.push(name)?;
        Ok(SimpleCommand { negated, look, cmd })
    }

    // The command with a redirection, in place of another of its kind.
    pub(crate) fn with_redirection(self, redirection: Redirection, name: Word) -> SimpleCommand
        ensures { result ≡ with_redirection self redirection name }
    {
        let SimpleCommand {
            negated,
            look,
            mut cmd,
        } = self;
        match redirection {
            Redirection::Input => cmd.source = Some(name),
            Redirection::Output => {
                cmd.target = Some(Target {
                    name,
                    append: false,
                });
            }
            Redirection::Append => cmd.target = Some(Target { name, append: true }),
        }
        SimpleCommand { negated, look, cmd }
    }
}

// Whether a command cannot begin with this word if it is unquoted.
fn is_reserved(name: &[u8]) -> bool
    ensures { result ≡ is_reserved name.now }
{
    same_bytes(name, b"!")
        || same_bytes(name, b"{")
        || same_bytes(name, b"}")
        || same_bytes(name, b"case")
        || same_bytes(name, b"do")
        || same_bytes(name, b"done")
        || same_bytes(name, b"elif")
        || same_bytes(name, b"else")
        || same_bytes(name, b"esac")
        || same_bytes(name, b"fi")
        || same_bytes(name, b"for")
        || same_bytes(name, b"if")
        || same_bytes(name, b"in")
        || same_bytes(name, b"then")
        || same_bytes(name, b"until")
        || same_bytes(name, b"while")
}

// Whether a command may begin with this word.
pub(crate) fn may_begin(look: Look, name: &[u8]) -> bool
    ensures { result ≡ may_begin look name.now }
{
    match look {
        Look::Unquoted => !is_reserved(name),
        Look::Assignment => false,
        Look::PartlyQuoted => true,
    }
}
