ghost use Rattle.std.specs.Prelude.{◌≡◌, ◌≤◌, ◌^◌, ◌+◌, ◌-◌, ◌<◌, true, length, take, drop, IfSome, MatchOption, List, [], ◌∷◌, ◌++◌, ◌&&◌, nat_lt, replicate, IsNone, OnOk, IfOk, IsErrOf, MatchBool};
ghost use Rattle.std.specs.Str.{bytes_eq};
ghost use Rattle.machine.specs.Lines.{HasNoNewline, IsLine, content, newline};
ghost use Rattle.machine.specs.inner.Places.{FirstFrom};
ghost use Rattle.lanes.specs.inner.Prefixes.{prefix_bytes};
ghost use Rattle.pair_filters.specs.LineKeys.{IsEnded, IsKeyAt, key_by};

use crate::made::Made;
use crate::runs::Rules;
use crate::short_runs::{are_short, begins_short, put_short_runs};
use lanes::{Prefix, are_same, find_near};
use machine::{
    NoMemory, StageFault, append, append_byte, clear_and_shrink, find_from, line_content,
};
use std::alloc::Global;
use std::mem;

// A line of more bytes is not copied into what is written.
const LONG: usize = 65536;

// The run that is not over: its first line with its newline, the place of that line's key, and how
// many lines the run has so far, or 0 if no line came.
#[derive(Drop)]
pub(crate) struct Begun {
    rules: Rules,
    first: Vec<u8>,
    key_at: usize,
    count: u64,
    ghost ended: { 1 ≤ count → IsEnded first.items },
    ghost right: { IsKeyAt rules (content first.items) key_at },
}

// What came of lines: the content of the first line of the run that is not over, if that began in
// them, how many lines this has, and the bytes after the last newline.
#[derive(Drop)]
struct Taken<'a> {
    first: Option<&'a [u8]>,
    count: u64,
    rest: &'a [u8],
}

// A run: its first line with its newline, the key of that, and how many lines the run has.
#[derive(Clone, Copy)]
struct Run<'a> {
    first: Prefix<'a>,
    key: Prefix<'a>,
    count: u64,
}

impl<'a> Run<'a> {
    // A run with this first line, with the key of that, and with this many lines.
    #[inline(always)]
    fn new(first: Prefix<'a>, key: Prefix<'a>, count: u64) -> Run<'a>
        ensures { result ≡ record { first = first.entry; key = key.entry; count = count } }
    {
        Run { first, key, count }
    }
}

// A line: the place of its newline, and whether it was found to be as good as the one before.
#[derive(Clone, Copy)]
struct NextLine {
    end: usize,
    is_alike: bool,
}

impl Begun {
    ghost use Rattle.pair_filters.specs.UniqSteps.{AreTooMany, IsOneTooMany, TakesBytes, TakesLine, contents_behind, first_of, greatest_by, lines_begun, text_by};

    // No line came.
    pub(crate) fn new(alloc: Global, rules: Rules) -> Begun
        ensures none { lines_begun result ≡ [] }
        ensures rules { result.rules ≡ rules }
    {
        Begun {
            rules,
            first: Vec::new(alloc),
            key_at: 0,
            count: 0,
        }
    }

    // Takes the lines that end in these bytes, if `partial` comes before them, and keeps what
    // follows.
    pub(crate) fn take_bytes(
        &mut self,
        partial: &mut Vec<u8>,
        bytes: &[u8],
        made: &mut Made,
    ) -> Result<(), StageFault>
        ensures ok { OnOk result
            (TakesBytes self.old.rules (lines_begun self.old)
            (lines_begun self.new) partial.old.items partial.new.items bytes.now made.old
            made.new) }
        ensures too_large { IsErrOf result StageFault.CountTooLarge
            → AreTooMany self.old.rules (lines_begun self.old) partial.old.items bytes.now }
        ensures rules { self.new.rules ≡ self.old.rules }
    {
        let mut at = 0;
        while !partial.is_empty() || self.is_long() {
            match find_from(bytes, at, b'\n') {
                None => {
                    append(partial, &bytes[at..])?;
                    return Ok(());
                }
                Some(end) => {
                    append(partial, &bytes[at..end])?;
                    self.take_line(partial, made)?;
                    at = end + 1;
                }
            }
        }
        self.take_lines(partial, &bytes[at..], made)?;
        Ok(())
    }

    // Takes the last line, if `partial` is its beginning, writes what is written of the last run, and forgets it.
    pub(crate) fn end(&mut self, partial: &mut Vec<u8>, made: &mut Made) -> Result<(), StageFault>
        ensures ok { OnOk result
            (made.new
            ≡ made.old
            ++ text_by self.old.rules
            (lines_begun self.old ++ contents_behind partial.old.items [])) }
        ensures too_large { IsErrOf result StageFault.CountTooLarge
            → 2 ^ 63 ≤ greatest_by self.old.rules
            (lines_begun self.old ++ contents_behind partial.old.items []) }
        ensures rules { self.new.rules ≡ self.old.rules }
    {
        if partial.is_empty() {
            self.put_last(made)?;
            return Ok(());
        }
        strip_newline(partial);
        self.take_line(partial, made)?;
        self.put_last(made)?;
        Ok(())
    }

    // Takes a line with this content, which is handed over: no bytes are left.
    fn take_line(&mut self, line: &mut Vec<u8>, made: &mut Made) -> Result<(), StageFault>
        ensures ok { OnOk result
            (TakesLine self.old.rules (lines_begun self.old)
            (lines_begun self.new) line.old.items made.old made.new) }
        ensures empty { OnOk result (line.new.items ≡ []) }
        ensures too_large { IsErrOf result StageFault.CountTooLarge
            → IsOneTooMany self.old.rules (lines_begun self.old) line.old.items }
        ensures rules { self.new.rules ≡ self.old.rules }
    {
        let is_same = goes_on(self.count, self.key(), self.rules.key(line));
        if is_same {
            self.count = self.rules.one_more(self.count)?;
            clear_and_shrink(line);
            return Ok(());
        }
        self.put_last(made)?;
        self.begin_with(line)?;
        clear_and_shrink(line);
        Ok(())
    }

    // Takes the lines that end in these bytes, and keeps what follows.
    fn take_lines(
        &mut self,
        partial: &mut Vec<u8>,
        bytes: &[u8],
        made: &mut Made,
    ) -> Result<(), StageFault>
        requires { partial.old.items ≡ [] }
        ensures ok { OnOk result
            (TakesBytes self.old.rules (lines_begun self.old)
            (lines_begun self.new) [] partial.new.items bytes.now made.old made.new) }
        ensures too_large { IsErrOf result StageFault.CountTooLarge
            → AreTooMany self.old.rules (lines_begun self.old) [] bytes.now }
        ensures rules { self.new.rules ≡ self.old.rules }
    {
        let taken = self.put_runs(bytes, made)?;
        self.set(taken.first, taken.count)?;
        append(partial, taken.rest)?;
        Ok(())
    }

    // Takes the lines that end in these bytes, without a copy, and writes what is written of the runs that they end. The loop over
    // them is compiled twice: without the way to short lines, long ones are faster.
    fn put_runs<'a>(&self, bytes: &'a [u8], made: &mut Made) -> Result<Taken<'a>, StageFault>
        ensures ok { IfOk result
            (λ taken. TakesBytes self.now.rules (lines_begun self.now)
            (replicate taken.count (first_of (content self.now.first.items) taken.first)) []
            taken.rest.now bytes.now made.old made.new) }
        ensures ended { IfOk result
            (λ taken. 1 ≤ taken.count → IsNone taken.first → IsEnded self.now.first.items) }
        ensures too_large { IsErrOf result StageFault.CountTooLarge
            → AreTooMany self.now.rules (lines_begun self.now) [] bytes.now }
    {
        if begins_short(bytes) {
            return self.walk_runs(bytes, true, made);
        }
        self.walk_runs(bytes, false, made)
    }

    // The same. `may_be_short` tells whether many short lines are expected.
    #[inline(always)]
    fn walk_runs<'a>(
        &self,
        bytes: &'a [u8],
        may_be_short: bool,
        made: &mut Made,
    ) -> Result<Taken<'a>, StageFault>
        ensures ok { IfOk result
            (λ taken. TakesBytes self.now.rules (lines_begun self.now)
            (replicate taken.count (first_of (content self.now.first.items) taken.first)) []
            taken.rest.now bytes.now made.old made.new) }
        ensures ended { IfOk result
            (λ taken. 1 ≤ taken.count → IsNone taken.first → IsEnded self.now.first.items) }
        ensures too_large { IsErrOf result StageFault.CountTooLarge
            → AreTooMany self.now.rules (lines_begun self.now) [] bytes.now }
    {
        let rules = self.rules;
        let mut history = 0;
        let mut begun = None;
        let mut run = Run::new(
            Prefix::whole(&self.first),
            Prefix::whole(self.key()),
            self.count,
        );
        let mut before = Prefix::whole(&[]);
        let mut at = 0;
        while let Some(next) = next_line(bytes, at, before) {
            let start = at;
            at = next.end + 1;
            if next.is_alike {
                run.count = rules.one_more(run.count)?;
                continue;
            }
            let (content, whole) = line_parts(bytes, start, next.end);
            before = whole;
            let line_key = rules.key_part(content);
            if continues(run.count, run.key, line_key) {
                run.count = rules.one_more(run.count)?;
                continue;
            }
            rules.put_run(run.first, run.count, made)?;
            begun = Some(content.bytes());
            run = Run::new(whole, line_key, 1);
            if !are_short(rules, may_be_short, &mut history, next.end - start) {
                continue;
            }
            let last = put_short_runs(rules, bytes, start, next.end, made)?;
            let (content, whole) = line_parts(bytes, last.start, last.end);
            begun = Some(content.bytes());
            run = Run::new(whole, rules.key_part(content), last.count);
            before = whole;
            at = last.end + 1;
        }
        Ok(Taken {
            first: begun,
            count: run.count,
            rest: &bytes[at..],
        })
    }

    // The key of its first line.
    fn key(&self) -> &[u8]
        ensures { result.now ≡ key_by self.now.rules (content self.now.first.items) }
    {
        &line_content(&self.first)[self.key_at..]
    }

    // Has a first line with this content from now on, if one is given, and this many lines.
    fn set(&mut self, first: Option<&[u8]>, count: u64) -> Result<(), NoMemory>
        requires { 1 ≤ count → IsNone first → IsEnded self.old.first.items }
        ensures ok { OnOk result
            (lines_begun self.new
            ≡ replicate count (first_of (content self.old.first.items) first.entry)) }
        ensures rules { self.new.rules ≡ self.old.rules }
    {
        match first {
            None => {
                self.count = count;
                Ok(())
            }
            Some(line) => self.begin(line, count),
        }
    }

    // Writes what is written of the last run, and forgets it.
    fn put_last(&mut self, made: &mut Made) -> Result<(), NoMemory>
        ensures ok { OnOk result
            (made.new ≡ made.old ++ text_by self.old.rules (lines_begun self.old)) }
        ensures rules { self.new.rules ≡ self.old.rules }
    {
        if self.is_long() {
            self.put_last_long(made)?;
            return Ok(());
        }
        self.rules
            .put_run(Prefix::whole(&self.first), self.count, made)?;
        self.count = 0;
        self.key_at = 0;
        clear_and_shrink(&mut self.first);
        Ok(())
    }

    // The same of a run whose first line is long.
    fn put_last_long(&mut self, made: &mut Made) -> Result<(), NoMemory>
        ensures ok { OnOk result
            (made.new ≡ made.old ++ text_by self.old.rules (lines_begun self.old)) }
        ensures rules { self.new.rules ≡ self.old.rules }
    {
        let count = self.count;
        let mut first = Vec::new(*self.first.allocator());
        mem::swap(&mut self.first, &mut first);
        self.count = 0;
        self.key_at = 0;
        self.rules.put_long(first, count, made)?;
        Ok(())
    }

    // Whether the first line is so long that it is not copied.
    fn is_long(&self) -> bool {
        self.first.len() > LONG
    }

    // Has a first line with this content from now on, whose memory it takes over, and one line. The bytes of the first line
    // before are left in its place.
    fn begin_with(&mut self, line: &mut Vec<u8>) -> Result<(), NoMemory>
        ensures ok { OnOk result (lines_begun self.new ≡ line.old.items ∷ []) }
        ensures rules { self.new.rules ≡ self.old.rules }
    {
        let key_at = line.len() - self.rules.key(line).len();
        append_byte(line, b'\n')?;
        mem::swap(&mut self.first, line);
        self.key_at = key_at;
        self.count = 1;
        Ok(())
    }

    // Has a first line with this content from now on, and this many lines.
    fn begin(&mut self, line: &[u8], count: u64) -> Result<(), NoMemory>
        ensures ok { OnOk result (lines_begun self.new ≡ replicate count line.now) }
        ensures rules { self.new.rules ≡ self.old.rules }
    {
        self.count = 0;
        self.key_at = 0;
        let is_kept = keep(&mut self.first, line);
        if is_kept {
            self.key_at = line.len() - self.rules.key(line).len();
            self.count = count;
            return Ok(());
        }
        Err(NoMemory)
    }
}

// Keeps a line with this content, and its newline, or nothing if there is no memory.
fn keep(kept: &mut Vec<u8>, content: &[u8]) -> bool
    ensures { MatchBool result (kept.new.items ≡ content.now ++ newline ∷ [])
        (kept.new.items ≡ []) }
{
    clear_and_shrink(kept);
    if append(kept, content).is_ok() && append_byte(kept, b'\n').is_ok() {
        return true;
    }
    kept.clear();
    false
}

// Takes off the newline of a line, if there is one.
fn strip_newline(line: &mut Vec<u8>)
    ensures { line.new.items ≡ content line.old.items }
{
    let len = line_content(line).len();
    line.truncate(len);
}

// The first line from the place `at` on, if one ends there. `before` is a line that came before it,
// or nothing.
#[inline(always)]
fn next_line(bytes: &[u8], at: usize, before: Prefix) -> Option<NextLine>
    requires at { at ≤ length bytes.now }
    requires before { 1 ≤ length (prefix_bytes before) → IsLine (prefix_bytes before) }
    ensures line { MatchOption result (HasNoNewline (drop at bytes.now))
        (λ next. FirstFrom bytes.now newline at next.end) }
    ensures alike { IfSome result
        (λ next. next.is_alike ≡ true
        → take (next.end + 1 - at) (drop at bytes.now) ≡ prefix_bytes before.entry) }
{
    if before.len() > 0 && begins_with(&bytes[at..], before) {
        return Some(NextLine {
            end: at + (before.len() - 1),
            is_alike: true,
        });
    }
    match find_near(bytes, at, b'\n') {
        None => None,
        Some(end) => Some(NextLine {
            end,
            is_alike: false,
        }),
    }
}

// The content of the line from `start` to the newline at `end`, and the line with its newline.
#[inline(always)]
fn line_parts(bytes: &[u8], start: usize, end: usize) -> (Prefix, Prefix)
    requires { (start ≤ end) × (end < length bytes.now) }
    ensures content { prefix_bytes result.0 ≡ take (end - start) (drop start bytes.now) }
    ensures whole { prefix_bytes result.1 ≡ take (end + 1 - start) (drop start bytes.now) }
{
    let line = &bytes[start..];
    (
        Prefix::new(line, end - start),
        Prefix::new(line, end + 1 - start),
    )
}

// Whether these bytes begin with those.
#[inline(always)]
fn begins_with(bytes: &[u8], front: Prefix) -> bool
    ensures { result ≡ true
        → bytes_eq (prefix_bytes front.entry)
        (take (length (prefix_bytes front.entry)) bytes.now) ≡ true }
{
    front.len() <= bytes.len() && are_same(front, Prefix::new(bytes, front.len()))
}

// Whether a line with this key goes on with a run of this many lines, whose first one has that key.
fn goes_on(count: u64, first: &[u8], line: &[u8]) -> bool
    ensures { result ≡ (nat_lt 0 count && bytes_eq first.now line.now) }
{
    continues(count, Prefix::whole(first), Prefix::whole(line))
}

// The same of short keys, compared as chunks.
#[inline(always)]
fn continues(count: u64, first: Prefix, line: Prefix) -> bool
    ensures { result
        ≡ (nat_lt 0 count && bytes_eq (prefix_bytes first.entry) (prefix_bytes line.entry)) }
{
    count > 0 && are_same(first, line)
}
