ghost use Rattle.std.specs.Prelude.{◌≡◌, ◌≤◌, ◌<◌, length, [], None, false, true, OnOk, IfOk};
ghost use Rattle.pipeline_text.specs.Tokens.{with_token};
ghost use Rattle.pipeline_text.specs.Grammar.{with_pipeline};
ghost use Rattle.pipeline_text.specs.Refusals.{Meets};
ghost use Rattle.pipeline_text.specs.inner.Takes.{control_of, is_newline_token, member_before};
ghost use Rattle.pipeline_text.specs.inner.Lexemes.{text_of, tokens_left, tokens_of, extent, GoesOn, Reads, ReadsTokens, token_before};
ghost use Rattle.pipeline_text.specs.inner.Parses.{name_left, fresh_left, IsFresh, is_begin, negates_at};
ghost use Rattle.pipeline_text.specs.inner.Parses.{commands_in, commands_behind, commands_at_word, commands_at_number};
ghost use Rattle.pipeline_text.specs.inner.Parses.{commands_at, commands_at_end, command_before};
ghost use Rattle.pipeline_text.specs.inner.Parses.{pipeline_goes, pipeline_then, pipelines_left, pipeline_before, IsShorter};
ghost use Rattle.pipeline_text.specs.inner.Parses.{some_left, nothing_more, script_behind, script_of_body, body_behind};
ghost use Rattle.pipeline_text.specs.inner.Parses.{IsBlamed, IsSomeRefusal, IsFirstFault};

use crate::command::{Expected, SimpleCommand, may_begin};
use crate::fault::{TextFault, TextFaultKind};
use crate::fifo::{fifo_names, is_name, makes_fifos, names_of};
use crate::lexer::Lexer;
use crate::script::Pipeline;
use crate::token::{
    Control, Look, Operator, Redirection, Token, control_of, descriptor, is_background, is_bang,
    is_newline, is_pipe, number_before, redirection_of,
};
use command_words::{Sequence, Word, same_bytes};
use std::alloc::Global;

// A text has no more tokens than bytes.
const TOKENS_MAX: usize = 65536;

// Reads a text's pipelines.
#[derive(Drop)]
pub(crate) struct Parser<'a> {
    pub lexer: Lexer<'a>,
    // Whether the pipeline begins with `mkfifo`, if its first word was read.
    pub makes_fifos: Option<bool>,
    // The offset of the first thing in the pipeline that no `mkfifo` command has.
    pub oddity: Option<usize>,
    // Whether a command can be read on after the fault that was met before its first word.
    pub goes_on: bool,
}

impl<'a> Parser<'a> {
    pub(crate) fn new(text: &'a [u8]) -> Parser<'a>
        ensures tokens { tokens_left result.lexer ≡ tokens_of text.now }
        ensures text { text_of result.lexer ≡ text.now }
    {
        Parser {
            lexer: Lexer::new(text),
            makes_fifos: None,
            oddity: None,
            goes_on: false,
        }
    }

    // A fault at the last token.
    fn fault(&self, kind: TextFaultKind) -> TextFault
        ensures kind { result.kind ≡ kind }
        ensures offset { result.offset ≤ length (text_of self.now.lexer) }
    {
        TextFault {
            kind,
            offset: self.lexer.start(),
        }
    }

    // Remembers that no `mkfifo` command has the last token.
    fn note(&mut self)
        ensures { self.new.lexer ≡ self.old.lexer }
    {
        if self.oddity.is_none() {
            self.oddity = Some(self.lexer.start());
        }
    }

    // The next token that is no newline.
    fn fresh_token(&mut self, alloc: Global) -> Result<Option<Token>, TextFault>
        ensures reads { ReadsTokens self.old.lexer self.new.lexer result fresh_left token_before }
        ensures on { GoesOn self.old.lexer self.new.lexer }
        ensures fresh { IsFresh result (extent self.old.lexer) (extent self.new.lexer) }
    {
        'newlines: while let Some(token) = self.lexer.next_token(alloc)? {
            if !is_newline(&token) {
                return Ok(Some(token));
            }
        }
        Ok(None)
    }

    // The word that a redirection needs which was read.
    fn name(&mut self, alloc: Global) -> Result<Word, TextFault>
        ensures reads { ReadsTokens self.old.lexer self.new.lexer result name_left member_before }
        ensures on { GoesOn self.old.lexer self.new.lexer }
    {
        let fault = self.fault(TextFaultKind::RedirectWithoutWord);
        let token = match self.lexer.next_token(alloc) {
            Ok(token) => token,
            Err(refusal) => {
                if refusal.kind == TextFaultKind::UnsupportedOperator {
                    return Err(fault);
                }
                return Err(refusal);
            }
        };
        match token {
            Some(Token::Word(name, _)) => Ok(name),
            _ => Err(fault),
        }
    }

    // A command with one more word.
    fn word(
        &mut self,
        command: SimpleCommand,
        name: Word,
        look: Look,
    ) -> Result<SimpleCommand, TextFault>
        ensures reads { Reads (text_of self.old.lexer) result
            (commands_at_word command name look (tokens_left self.old.lexer))
            commands_behind
            (tokens_left self.old.lexer) }
        ensures same { self.new.lexer ≡ self.old.lexer }
    {
        if command.has_no_words() {
            return self.first_word(command, name, look);
        }
        if !is_name(name.bytes()) {
            self.note();
        }
        Ok(command.with_word(name)?)
    }

    // A command with its first word.
    fn first_word(
        &mut self,
        command: SimpleCommand,
        name: Word,
        look: Look,
    ) -> Result<SimpleCommand, TextFault>
        requires { command.cmd.words ≡ [] }
        ensures reads { Reads (text_of self.old.lexer) result
            (commands_at_word command name look (tokens_left self.old.lexer))
            commands_behind
            (tokens_left self.old.lexer) }
        ensures same { self.new.lexer ≡ self.old.lexer }
    {
        if !may_begin(look, name.bytes()) {
            if look == Look::Assignment {
                return Err(self.fault(TextFaultKind::Assignment));
            }
            return Err(self.fault(TextFaultKind::UnsupportedOperator));
        }
        if self.makes_fifos.is_none() {
            self.makes_fifos = Some(self.is_mkfifo(&name));
        }
        Ok(command.with_first_word(name, look)?)
    }

    // Whether the last token, which is this word, is `mkfifo`, and does not go on with what is refused.
    fn is_mkfifo(&self, name: &Word) -> bool {
        same_bytes(name.bytes(), b"mkfifo") && !self.lexer.is_at_fault()
    }

    // A command with a redirection, whose operator was read.
    fn redirect(
        &mut self,
        alloc: Global,
        command: SimpleCommand,
        redirection: Redirection,
    ) -> Result<SimpleCommand, TextFault>
        ensures reads { ReadsTokens self.old.lexer self.new.lexer result
            (commands_at command redirection)
            commands_behind }
        ensures on { GoesOn self.old.lexer self.new.lexer }
    {
        let twice = command.has(redirection);
        let fault = self.fault(TextFaultKind::RedirectedTwice);
        let name = match self.name(alloc) {
            Ok(name) => name,
            Err(refusal) if twice => return Err(refusal.or_earlier(fault)),
            Err(refusal) => return Err(refusal),
        };
        if twice {
            self.goes_on = true;
            return Err(fault);
        }
        Ok(command.with_redirection(redirection, name))
    }

    // A command with a redirection, whose descriptor's number was read.
    fn numbered(
        &mut self,
        alloc: Global,
        command: SimpleCommand,
        number: Word,
    ) -> Result<SimpleCommand, TextFault>
        ensures reads { ReadsTokens self.old.lexer self.new.lexer result
            (commands_at_number command number)
            commands_behind }
        ensures on { GoesOn self.old.lexer self.new.lexer }
    {
        let fault = self.fault(TextFaultKind::UnsupportedOperator);
        let is_known = same_bytes(number.bytes(), number_before(self.lexer.next_byte()));
        let token = match self.lexer.next_token(alloc) {
            Ok(token) => token,
            Err(refusal) if is_known => return Err(refusal),
            Err(refusal) => return Err(refusal.or_earlier(fault)),
        };
        let Some(redirection) = redirection_of(token) else {
            return Err(fault);
        };
        if !same_bytes(number.bytes(), descriptor(redirection)) {
            self.goes_on = self.name(alloc).is_ok();
            return Err(fault);
        }
        self.redirect(alloc, command, redirection)
    }

    // A command with what begins with a token that does not end it.
    fn element(
        &mut self,
        alloc: Global,
        command: SimpleCommand,
        token: Token,
    ) -> Result<SimpleCommand, TextFault>
        requires goes_on { control_of token ≡ None }
        ensures reads { ReadsTokens self.old.lexer self.new.lexer result
            (λ ts. commands_behind command (with_token token ts))
            commands_behind }
        ensures on { GoesOn self.old.lexer self.new.lexer }
    {
        match token {
            Token::Word(name, look) => self.word(command, name, look),
            Token::Number(number) => {
                self.note();
                self.numbered(alloc, command, number)
            }
            Token::Operator(operator) => match operator {
                Operator::Redirection(redirection) => {
                    self.note();
                    self.redirect(alloc, command, redirection)
                }
                Operator::Control(_) => Err(self.fault(TextFaultKind::EmptyCommand)),
            },
        }
    }

    // A command with all that comes before what ends it, and what ends it.
    fn elements(
        &mut self,
        alloc: Global,
        command: SimpleCommand,
    ) -> Result<(SimpleCommand, Control), TextFault>
        ensures reads { ReadsTokens self.old.lexer self.new.lexer result
            (commands_behind command)
            commands_at_end }
        ensures on { GoesOn self.old.lexer self.new.lexer }
    {
        let mut command = command;
        'tokens: while let Some(token) = self.lexer.next_token(alloc)? {
            if let Some(control) = control_of(&token) {
                return Ok((command, control));
            }
            command = self.element(alloc, command, token)?;
        }
        Ok((command, Control::Semicolon))
    }

    // The whole command that begins with what was read, and what ends it.
    fn rest(
        &mut self,
        alloc: Global,
        command: SimpleCommand,
    ) -> Result<(SimpleCommand, Control), TextFault>
        ensures reads { ReadsTokens self.old.lexer self.new.lexer result
            (commands_behind command)
            command_before }
        ensures on { GoesOn self.old.lexer self.new.lexer }
    {
        let (command, control) = self.elements(alloc, command)?;
        if command.has_no_words() {
            return Err(self.fault(TextFaultKind::EmptyCommand));
        }
        Ok((command, control))
    }

    // What a command becomes of its first token.
    fn begin(
        &mut self,
        alloc: Global,
        place: Expected,
        token: Token,
    ) -> Result<SimpleCommand, TextFault>
        requires begins { is_begin place ≡ true }
        requires fresh { is_newline_token token ≡ false }
        ensures reads { ReadsTokens self.old.lexer self.new.lexer result
            (λ ts. commands_in place (with_token token ts))
            commands_behind }
        ensures on { GoesOn self.old.lexer self.new.lexer }
    {
        if control_of(&token).is_some() {
            return Err(self.fault(TextFaultKind::EmptyCommand));
        }
        let command = SimpleCommand::new(alloc);
        if negates(place, &token) {
            self.makes_fifos = Some(false);
            return Ok(command.with_bang());
        }
        self.element(alloc, command, token)
    }

    // The command that begins with a token, and what ends it.
    fn command(
        &mut self,
        alloc: Global,
        place: Expected,
        token: Token,
    ) -> Result<(SimpleCommand, Control), TextFault>
        requires begins { is_begin place ≡ true }
        requires fresh { is_newline_token token ≡ false }
        ensures reads { ReadsTokens self.old.lexer self.new.lexer result
            (λ ts. commands_in place (with_token token ts))
            command_before }
        ensures on { GoesOn self.old.lexer self.new.lexer }
    {
        let command = self.begin(alloc, place, token)?;
        self.rest(alloc, command)
    }

    // Remembers what ends a command, if that is `&`.
    fn note_end(&mut self, control: Control)
        ensures { self.new.lexer ≡ self.old.lexer }
    {
        if is_background(control) {
            self.note();
        }
    }

    // Adds the commands to a pipeline that it is joined to by `|`, if its first command is ended by
    // it.
    fn piped(
        &mut self,
        alloc: Global,
        pipeline: &mut Pipeline,
        first: Control,
    ) -> Result<(), TextFault>
        ensures reads { ReadsTokens self.old.lexer self.new.lexer result
            (pipeline_goes pipeline.old first)
            (λ _ ts. pipeline_then pipeline.new ts) }
        ensures on { GoesOn self.old.lexer self.new.lexer }
    {
        let mut control = first;
        'commands: while is_pipe(control) {
            self.note();
            let Some(token) = self.fresh_token(alloc)? else {
                return Err(self.fault(TextFaultKind::EmptyCommand));
            };
            let (command, next) = self.command(alloc, Expected::Command, token)?;
            pipeline.commands.push(command.into_cmd())?;
            control = next;
        }
        self.note_end(control);
        pipeline.background = is_background(control);
        Ok(())
    }

    // The next pipeline, and none at the text's end.
    pub(crate) fn pipeline(&mut self, alloc: Global) -> Result<Option<Pipeline>, TextFault>
        ensures reads { Reads (text_of self.old.lexer) result
            (pipelines_left self.old.lexer)
            pipeline_before
            (pipelines_left self.new.lexer) }
        ensures on { GoesOn self.old.lexer self.new.lexer }
        ensures shorter { IsShorter result (extent self.old.lexer) (extent self.new.lexer) }
    {
        self.makes_fifos = None;
        self.oddity = None;
        self.goes_on = false;
        let Some(token) = self.fresh_token(alloc)? else {
            return Ok(None);
        };
        let (command, control) = self.command(alloc, Expected::Pipeline, token)?;
        let mut pipeline = Pipeline {
            negated: command.is_negated(),
            background: false,
            commands: Sequence::new(alloc),
        };
        pipeline.commands.push(command.into_cmd())?;
        self.piped(alloc, &mut pipeline, control)?;
        Ok(Some(pipeline))
    }

    // The next pipeline, which the text has to have.
    fn next_pipeline(&mut self, alloc: Global) -> Result<Pipeline, TextFault>
        ensures reads { Reads (text_of self.old.lexer) result
            (some_left (pipelines_left self.old.lexer))
            with_pipeline
            (pipelines_left self.new.lexer) }
        ensures on { GoesOn self.old.lexer self.new.lexer }
        ensures shorter { OnOk result (extent self.new.lexer < extent self.old.lexer) }
    {
        match self.pipeline(alloc)? {
            Some(pipeline) => Ok(pipeline),
            None => Err(self.fault(TextFaultKind::NoForeground)),
        }
    }

    // This refusal, or that a `mkfifo` command has what none may have, whichever comes first.
    fn blamed(&mut self, alloc: Global, refusal: TextFault) -> TextFault
        ensures blamed { IsBlamed refusal result }
        ensures on { GoesOn self.old.lexer self.new.lexer }
    {
        let Some(offset) = self.oddity else {
            return refusal;
        };
        if !self.begins_mkfifo(alloc) {
            return refusal;
        }
        refusal.or_earlier(TextFault {
            kind: TextFaultKind::UnsupportedOperator,
            offset,
        })
    }

    // Whether the pipeline begins with `mkfifo`: also if a fault comes before its first word and
    // the command goes on after it.
    fn begins_mkfifo(&mut self, alloc: Global) -> bool
        ensures on { GoesOn self.old.lexer self.new.lexer }
    {
        match self.makes_fifos {
            Some(found) => found,
            None => self.goes_on && self.is_mkfifo_next(alloc),
        }
    }

    // Whether the first word after redirections is `mkfifo`.
    fn is_mkfifo_next(&mut self, alloc: Global) -> bool
        ensures on { GoesOn self.old.lexer self.new.lexer }
    {
        let mut is_name = false;
        for token in 0..TOKENS_MAX {
            match self.lexer.next_token(alloc) {
                Ok(Some(Token::Word(_, _))) if is_name => is_name = false,
                Ok(Some(Token::Word(word, _))) => return self.is_mkfifo(&word),
                Ok(Some(Token::Number(_))) if !is_name => {}
                Ok(Some(Token::Operator(Operator::Redirection(_)))) if !is_name => is_name = true,
                _ => return false,
            }
        }
        false
    }

    // Reads the `mkfifo` commands, adds their names, and returns the pipeline after them.
    pub(crate) fn fifos(
        &mut self,
        alloc: Global,
        names: &mut Sequence<Word>,
    ) -> Result<Pipeline, TextFault>
        ensures reads { Reads (text_of self.old.lexer) result
            (script_behind names.old (pipelines_left self.old.lexer))
            (script_of_body names.new)
            (pipelines_left self.new.lexer) }
        ensures on { GoesOn self.old.lexer self.new.lexer }
    {
        'commands: loop {
            let pipeline = match self.next_pipeline(alloc) {
                Ok(pipeline) => pipeline,
                Err(refusal) => return Err(self.blamed(alloc, refusal)),
            };
            let Some(found) = fifo_names(&pipeline) else {
                return Ok(pipeline);
            };
            if !makes_fifos(&pipeline, found) {
                return Err(self.blamed(alloc, self.fault(TextFaultKind::EmptyCommand)));
            }
            names.append(names_of(pipeline))?;
        }
    }

    // The pipelines from the first one on, up to the text's end.
    pub(crate) fn body(
        &mut self,
        alloc: Global,
        first: Pipeline,
    ) -> Result<Sequence<Pipeline>, TextFault>
        ensures { Meets (text_of self.old.lexer) result
            (body_behind first (pipelines_left self.old.lexer)) }
    {
        let mut pipelines = Sequence::new(alloc);
        let mut pipeline = first;
        'background: while pipeline.background {
            pipelines.push(pipeline)?;
            pipeline = self.next_pipeline(alloc)?;
        }
        pipelines.push(pipeline)?;
        self.end(alloc)?;
        Ok(pipelines)
    }

    // The text's end, after the pipeline in the foreground.
    fn end(&mut self, alloc: Global) -> Result<(), TextFault>
        ensures { Meets (text_of self.old.lexer) result
            (nothing_more (pipelines_left self.old.lexer)) }
    {
        let next = match self.fresh_token(alloc) {
            Ok(next) => next,
            Err(refusal) => {
                return Err(refusal.or_earlier(self.fault(TextFaultKind::OneAfterAnother)));
            }
        };
        let Some(token) = next else {
            return Ok(());
        };
        Err(self.after(alloc, token))
    }

    // The fault at a token after the pipeline in the foreground.
    fn after(&mut self, alloc: Global, token: Token) -> TextFault
        ensures { IsSomeRefusal (text_of self.old.lexer) result }
    {
        let fault = self.fault(TextFaultKind::OneAfterAnother);
        match token {
            Token::Word(_, _) => first_fault(self.lexer.next_token(alloc), fault),
            Token::Number(number) => {
                let command = SimpleCommand::new(alloc);
                first_fault(self.numbered(alloc, command, number), fault)
            }
            Token::Operator(operator) => match operator {
                Operator::Redirection(_) => first_fault(self.name(alloc), fault),
                Operator::Control(_) => fault,
            },
        }
    }
}

// This fault, or the one that was found, whichever comes first.
fn first_fault<T: Drop>(found: Result<T, TextFault>, fault: TextFault) -> TextFault
    ensures { IsFirstFault found fault result }
{
    match found {
        Ok(_) => fault,
        Err(refusal) => refusal.or_earlier(fault),
    }
}

// Whether a token negates the pipeline that it begins.
fn negates(place: Expected, token: &Token) -> bool
    ensures { result ≡ negates_at place token.now }
{
    match place {
        Expected::Pipeline => is_bang(token),
        Expected::Command => false,
        Expected::Rest => false,
    }
}
