// The options of PLRUN_OPTIONS among the words of a process.
ghost use Rattle.std.specs.Prelude.{◌≡◌, ◌&&◌, ◌++◌, ◌∷◌, ◌-◌, ◌≤◌, [], map, drop, take, length, true, not, IfOk, IfErr, string_bytes};
ghost use Rattle.std.specs.List.{filter, find, list_any};
ghost use Rattle.command_line.specs.Presets.{IsRefusedFor, asks, bytes_of_texts, is_given, is_given_too, is_option, is_preset, is_question, preset_count, process_words, refused_preset, words_of};
ghost use Rattle.command_line.specs.Sizes.{with_plain_sizes};
ghost use Rattle.command_line.specs.Words.{text_of_bytes};
ghost use Rattle.command_line.specs.inner.Unknown.{IsFirstUnknown};

use crate::sizes::with_plain_sizes;
use crate::words::text_of_bytes;
use std::alloc::{AllocError, AllocFailed, Global};

// The options that the variable may have. What asks for no run is for the command line.
const PRESETS: [&str; 12] = [
    "--workers",
    "--capacity",
    "--max-capacity",
    "--bytes",
    "--block",
    "--turns",
    "--strict",
    "--quiet-pipe",
    "--atomic",
    "--progress",
    "--stats",
    "--hints",
];

// The long options that ask about the program itself.
const QUESTIONS: [&str; 3] = ["--version", "--help", "--explain"];

/// Why a process has no words.
#[derive(Drop)]
pub enum NoWords {
    /// Memory was refused.
    NoMemory,
    /// The variable has this word, which is none of the options that it may have.
    NoPreset(Vec<u8>),
}

impl From<AllocError> for NoWords {
    ghost use Rattle.std.specs.Prelude.{◌≡◌};
    ghost use Rattle.command_line.specs.declared.presets.NoWords.TheVariants as none;

    ghost from_gives = { λ _ given. given ≡ none.NoMemory };

    fn from(_error: AllocError) -> NoWords {
        NoWords::NoMemory
    }
}

impl From<AllocFailed<String>> for NoWords {
    ghost use Rattle.std.specs.Prelude.{◌≡◌};
    ghost use Rattle.command_line.specs.declared.presets.NoWords.TheVariants as none;

    ghost from_gives = { λ _ given. given ≡ none.NoMemory };

    fn from(_error: AllocFailed<String>) -> NoWords {
        NoWords::NoMemory
    }
}

/// The words of a process, each as the text that means its bytes: the program's name, the options of the variable that the command line
/// does not give, and the other words of the command line.
#[derive(Drop)]
pub struct ProcessWords {
    /// All of them.
    pub words: Vec<String>,
    /// How many of them are of the variable. They come after the program's name.
    pub presets: usize,
}

impl ProcessWords {
    /// All of them.
    pub fn texts(&self, alloc: Global) -> Result<Vec<&str>, AllocError>
        ensures { IfOk result (λ texts. map (λ text. text.now) texts.items ≡ map (λ word. string_bytes word) self.now.words.items) }
    {
        self.words.iter().map(|word| word.as_str()).collect(alloc)
    }

    /// The same with a plain number in place of each size, as `with_plain_sizes` has them.
    pub fn with_plain_sizes(&self, alloc: Global) -> Result<ProcessWords, AllocError>
        ensures words { IfOk result (λ whole. map (λ word. string_bytes word) whole.words.items
            ≡ with_plain_sizes (map (λ word. string_bytes word) self.now.words.items)) }
        ensures presets { IfOk result (λ whole. whole.presets ≡ self.now.presets) }
    {
        let words = with_plain_sizes(alloc, self.words.as_slice())?;
        Ok(ProcessWords {
            words,
            presets: self.presets,
        })
    }

    /// Those that are of the variable.
    pub fn presets(&self) -> &[String]
        ensures { self.now.presets ≤ length self.now.words.items - 1 → result.now ≡ take self.now.presets (drop 1 self.now.words.items) }
    {
        presets_of(self.words.as_slice(), self.presets)
    }
}

/// The words after the first one, up to this count.
pub fn presets_of<T>(words: &[T], count: usize) -> &[T]
    ensures { count ≤ length words.now - 1 → result.now ≡ take count (drop 1 words.now) }
{
    match words.get(1..count.saturating_add(1)) {
        Some(presets) => presets,
        None => &[],
    }
}

/// The words of a process, whose own words are given: its name, the options of the variable that the others do not give, and the others.
/// The variable is not looked at if they ask about the program itself.
pub fn with_presets(
    alloc: Global,
    given: &[Vec<u8>],
    options: &[u8],
) -> Result<ProcessWords, NoWords>
    ensures texts { IfOk result (λ whole. map (λ word. string_bytes word) whole.words.items
        ≡ map text_of_bytes (process_words (map (λ word. word.items) given.now) options.now)) }
    ensures words { IfOk result (λ whole. bytes_of_texts whole.words.items ≡ process_words (map (λ word. word.items) given.now) options.now) }
    ensures presets { IfOk result (λ whole. whole.presets ≡ preset_count (map (λ word. word.items) given.now) options.now) }
    ensures known { IfOk result (λ whole. refused_preset (map (λ word. word.items) given.now) options.now ≡ None) }
    ensures refused { IfErr result (IsRefusedFor (map (λ word. word.items) given.now) options.now) }
{
    let mut words = Vec::new(alloc);
    let Some((name, rest)) = given.split_first() else {
        return Ok(ProcessWords { words, presets: 0 });
    };
    words.push(text_of_bytes(alloc, name.as_slice())?)?;
    if !is_question(rest) {
        add_presets(alloc, rest, options, &mut words)?;
    }
    let presets = words.len().saturating_sub(1);
    add_words(alloc, rest, &mut words)?;
    Ok(ProcessWords { words, presets })
}

// Adds the options of the variable that the command line does not give.
fn add_presets(
    alloc: Global,
    given: &[Vec<u8>],
    options: &[u8],
    words: &mut Vec<String>,
) -> Result<(), NoWords>
    ensures added { IfOk result (λ _. bytes_of_texts words.new.items ≡ bytes_of_texts words.old.items
        ++ filter (λ word. not (is_given_too (map (λ word. word.items) given.now) word)) (words_of options.now)) }
    ensures texts { IfOk result (λ _. map (λ word. string_bytes word) words.new.items ≡ map (λ word. string_bytes word) words.old.items
        ++ map text_of_bytes (filter (λ word. not (is_given_too (map (λ word. word.items) given.now) word)) (words_of options.now))) }
    ensures known { IfOk result (λ _. find (λ word. not (is_preset word)) (words_of options.now) ≡ None) }
    ensures refused { IfErr result (IsFirstUnknown (words_of options.now)) }
{
    let presets = words_of(alloc, options)?;
    for preset in presets.as_slice() {
        add_preset(alloc, given, preset, words)?;
    }
    Ok(())
}

// Adds a word of the variable, if the command line does not give its option.
fn add_preset(
    alloc: Global,
    given: &[Vec<u8>],
    preset: &[u8],
    words: &mut Vec<String>,
) -> Result<(), NoWords>
    ensures added { IfOk result (λ _. bytes_of_texts words.new.items ≡ bytes_of_texts words.old.items
        ++ filter (λ word. not (is_given_too (map (λ word. word.items) given.now) word)) (preset.now ∷ [])) }
    ensures texts { IfOk result (λ _. map (λ word. string_bytes word) words.new.items ≡ map (λ word. string_bytes word) words.old.items
        ++ map text_of_bytes (filter (λ word. not (is_given_too (map (λ word. word.items) given.now) word)) (preset.now ∷ []))) }
    ensures known { IfOk result (λ _. is_preset preset.now ≡ true) }
    ensures refused { IfErr result (IsFirstUnknown (preset.now ∷ [])) }
{
    if !is_preset(preset) {
        return Err(NoWords::NoPreset(Vec::from_slice(alloc, preset)?));
    }
    if !is_given_too(given, preset) {
        words.push(text_of_bytes(alloc, preset)?)?;
    }
    Ok(())
}

// Adds words as texts.
fn add_words(alloc: Global, given: &[Vec<u8>], words: &mut Vec<String>) -> Result<(), NoWords>
    ensures added { IfOk result (λ _. bytes_of_texts words.new.items ≡ bytes_of_texts words.old.items ++ map (λ word. word.items) given.now) }
    ensures texts { IfOk result (λ _. map (λ word. string_bytes word) words.new.items ≡ map (λ word. string_bytes word) words.old.items
        ++ map text_of_bytes (map (λ word. word.items) given.now)) }
    ensures refused { IfErr result (λ error. error ≡ NoWords.NoMemory) }
{
    for word in given {
        words.push(text_of_bytes(alloc, word.as_slice())?)?;
    }
    Ok(())
}

/// Whether a word is this option, alone or with a value after `=`.
pub fn is_option(word: &[u8], option: &[u8]) -> bool
    ensures { result ≡ is_option option.now word.now }
{
    let Some(rest) = word.strip_prefix(option) else {
        return false;
    };
    match rest.split_first() {
        Some((byte, _)) => *byte == b'=',
        None => true,
    }
}

// Whether a word is one of these options.
fn is_one_of(word: &[u8], options: &[&str]) -> bool
    ensures { result ≡ list_any (λ option. is_option option.now word.now) options.now }
{
    options
        .iter()
        .any(|option| is_option(word, option.as_bytes()))
}

// Whether the command line gives this option.
fn is_given(words: &[Vec<u8>], option: &[u8]) -> bool
    ensures { result ≡ is_given (map (λ word. word.items) words.now) option.now }
{
    words
        .iter()
        .take_while(|word| word.as_slice() != b"--".as_slice())
        .any(|word| is_option(word.as_slice(), option))
}

// Whether a word of the variable is one of its options.
fn is_preset(word: &[u8]) -> bool
    ensures { result ≡ is_preset word.now }
{
    is_one_of(word, PRESETS.as_slice())
}

// Whether the command line gives the option that this word of the variable is.
fn is_given_too(words: &[Vec<u8>], word: &[u8]) -> bool
    ensures { result ≡ is_given_too (map (λ word. word.items) words.now) word.now }
{
    gives_one_of(words, word, PRESETS.as_slice())
}

// Whether the command line gives one of these options that a word is too.
fn gives_one_of(words: &[Vec<u8>], word: &[u8], options: &[&str]) -> bool
    ensures { result ≡ list_any (λ option. is_option option.now word.now
        && is_given (map (λ word. word.items) words.now) option.now) options.now }
{
    options.iter().any(|option| {
        is_option(word, option.as_bytes()) && is_given(words, option.as_bytes())
    })
}

// Whether a word asks for the help, for the version, or what a fault means.
fn asks(word: &[u8]) -> bool
    ensures { result ≡ asks word.now }
{
    is_one_of(word, QUESTIONS.as_slice())
        || word.starts_with(b"-V".as_slice())
        || word.starts_with(b"-h".as_slice())
}

// Whether the command line asks about the program itself.
fn is_question(words: &[Vec<u8>]) -> bool
    ensures { result ≡ is_question (map (λ word. word.items) words.now) }
{
    words
        .iter()
        .take_while(|word| word.as_slice() != b"--".as_slice())
        .any(|word| asks(word.as_slice()))
}

// The words of the variable.
fn words_of(alloc: Global, options: &[u8]) -> Result<Vec<&[u8]>, AllocError>
    ensures { IfOk result (λ words. map (λ word. word.now) words.items ≡ words_of options.now) }
{
    options
        .split(|byte| byte.is_ascii_whitespace())
        .filter(|word| !word.is_empty())
        .collect(alloc)
}
