ghost use Rattle.std.specs.Prelude.{◌≡◌, ◌^◌, ◌+◌, ◌≤◌, ◌++◌, [], ◌∷◌, decimal, true, replicate, OnOk, MatchResult};
ghost use Rattle.machine.specs.Lines.{content};
ghost use Rattle.machine.specs.declared.protocol.StageFault.TheVariants as fault;
ghost use Rattle.command_words.specs.Bytes.{space};
ghost use Rattle.pair_filters.specs.LineKeys.{IsEnded, key_by};
ghost use Rattle.lanes.specs.inner.Prefixes.{prefix_bytes};
ghost use Rattle.pair_filters.specs.UniqSteps.{one_more, text_by};
ghost use Rattle.commands.specs.Uniq.{run_text};

use crate::keys::key;
use crate::made::Made;
use commands::RunsShown;
use itoa::Buffer;
use lanes::Prefix;
use machine::{NoMemory, StageFault, add_count};

// What uniq compares of lines, and what it writes of runs.
#[derive(Clone, Copy)]
pub(crate) struct Rules {
    pub(crate) skipped_fields: u64,
    pub(crate) skipped_bytes: u64,
    pub(crate) shown: RunsShown,
}

impl Rules {
    // Whether whole lines are compared.
    #[inline(always)]
    pub(crate) fn compares_lines(self) -> bool
        ensures { result ≡ true → (self.skipped_fields ≡ 0) × (self.skipped_bytes ≡ 0) }
    {
        self.skipped_fields == 0 && self.skipped_bytes == 0
    }

    // The key of a line with this content.
    pub(crate) fn key(self, content: &[u8]) -> &[u8]
        ensures { result.now ≡ key_by self content.now }
    {
        key(self.skipped_fields, self.skipped_bytes, content)
    }

    // The same of the first bytes of a slice.
    #[inline(always)]
    pub(crate) fn key_part(self, content: Prefix) -> Prefix
        ensures { prefix_bytes result ≡ key_by self (prefix_bytes content.entry) }
    {
        if self.compares_lines() {
            return content;
        }
        let key = self.key(content.bytes());
        content.part(content.len() - key.len(), content.len())
    }

    // How many lines a run has with one more. If that is not written, two means all numbers above
    // one.
    pub(crate) fn one_more(self, count: u64) -> Result<u64, StageFault>
        ensures { MatchResult result (λ more. more ≡ one_more self.shown count)
            (λ given. (given ≡ fault.CountTooLarge) × (self.shown ≡ RunsShown.Counted)
            × (2 ^ 63 ≤ count + 1)) }
    {
        match self.shown {
            RunsShown::Counted => add_count(count, 1),
            RunsShown::Every | RunsShown::Repeated | RunsShown::Single => Ok(2),
        }
    }

    // Writes what is written of a run of this many lines. `first` is its first line, with its
    // newline.
    #[inline(always)]
    pub(crate) fn put_run(self, first: Prefix, count: u64, made: &mut Made) -> Result<(), NoMemory>
        requires { 1 ≤ count → IsEnded (prefix_bytes first) }
        ensures { OnOk result
            (made.new
            ≡ made.old ++ text_by self (replicate count (content (prefix_bytes first.entry)))) }
    {
        if count == 0 {
            return Ok(());
        }
        put_some(self.shown, first, count, made)?;
        Ok(())
    }

    // The same of a long first line, which is not copied.
    pub(crate) fn put_long(
        self,
        first: Vec<u8>,
        count: u64,
        made: &mut Made,
    ) -> Result<(), NoMemory>
        requires { 1 ≤ count → IsEnded first.items }
        ensures { OnOk result
            (made.new ≡ made.old ++ text_by self (replicate count (content first.items))) }
    {
        if count == 0 {
            return Ok(());
        }
        put_some_long(self.shown, first, count, made)?;
        Ok(())
    }
}

// Writes what is written of a run of this many lines, at least one, whose first line is long.
fn put_some_long(
    shown: RunsShown,
    first: Vec<u8>,
    count: u64,
    made: &mut Made,
) -> Result<(), NoMemory>
    requires { IsEnded first.items }
    ensures { OnOk result (made.new ≡ made.old ++ run_text shown (content first.items) count) }
{
    match shown {
        RunsShown::Every => made.put_line(first),
        RunsShown::Counted => {
            put_count(count, made)?;
            made.put_line(first)
        }
        RunsShown::Repeated => {
            if count >= 2 {
                return made.put_line(first);
            }
            Ok(())
        }
        RunsShown::Single => {
            if count == 1 {
                return made.put_line(first);
            }
            Ok(())
        }
    }
}

// Writes what is written of a run of this many lines, at least one. `first` is its first line, with
// its newline.
#[inline(always)]
fn put_some(shown: RunsShown, first: Prefix, count: u64, made: &mut Made) -> Result<(), NoMemory>
    requires { IsEnded (prefix_bytes first) }
    ensures { OnOk result
        (made.new ≡ made.old ++ run_text shown (content (prefix_bytes first.entry)) count) }
{
    match shown {
        RunsShown::Every => made.put_part(first),
        RunsShown::Counted => {
            put_count(count, made)?;
            made.put_part(first)
        }
        RunsShown::Repeated => {
            if count >= 2 {
                return made.put_part(first);
            }
            Ok(())
        }
        RunsShown::Single => {
            if count == 1 {
                return made.put_part(first);
            }
            Ok(())
        }
    }
}

// Writes how many lines a run has, and a space.
#[inline(always)]
fn put_count(count: u64, made: &mut Made) -> Result<(), NoMemory>
    ensures { OnOk result (made.new ≡ made.old ++ (decimal count ++ space ∷ [])) }
{
    put_number(count, made)?;
    made.put_byte(b' ')
}

// Writes a number.
#[inline(always)]
fn put_number(number: u64, made: &mut Made) -> Result<(), NoMemory>
    ensures { OnOk result (made.new ≡ made.old ++ decimal number) }
{
    if number < 10 {
        return made.put_byte(b'0' + number as u8);
    }
    put_digits(number, made)
}

// Writes a number of several digits.
#[inline(never)]
fn put_digits(number: u64, made: &mut Made) -> Result<(), NoMemory>
    ensures { OnOk result (made.new ≡ made.old ++ decimal number) }
{
    let mut buffer = Buffer::new();
    made.put(buffer.format(number).as_bytes())
}
