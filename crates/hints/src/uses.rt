// The commands of a script, and the places at which its files and FIFOs are named.
use command_words::{Span, Word};
use commands::FilterSpec;
use pipeline_text::{Cmd, Pipeline, Script};
use std::alloc::{AllocError, Global};

// The command of this number, from 1 over all pipelines.
pub(crate) fn command(script: &Script, number: usize) -> Option<&Cmd> {
    let mut left = number.checked_sub(1)?;
    for pipeline in script.pipelines.as_slice() {
        let commands = pipeline.commands.as_slice();
        if left < commands.len() {
            return commands.get(left);
        }
        left -= commands.len();
    }
    None
}

// The command that has a word at this place.
pub(crate) fn command_with(script: &Script, place: Span) -> Option<&Cmd> {
    for pipeline in script.pipelines.as_slice() {
        let mut commands = pipeline.commands.as_slice().iter();
        if let Some(found) = commands.find(|command| has_word_at(command, place)) {
            return Some(found);
        }
    }
    None
}

// Whether a command has a word at this place.
fn has_word_at(command: &Cmd, place: Span) -> bool {
    let mut words = command.words.as_slice().iter();
    words.any(|word| word.place() == Some(place))
}

// The place of the words of a command, with what is between them.
pub(crate) fn place_of(command: &Cmd) -> Option<Span> {
    let words = command.words.as_slice();
    let (first, last) = (words.first()?.place()?, words.last()?.place()?);
    let (start, end) = (first.start, last.end);
    Some(Span { start, end })
}

// A place that names a file or a FIFO: the name, its place in the text, and whether it is written there.
#[derive(Clone, Copy)]
pub(crate) struct Use<'a> {
    pub(crate) name: &'a [u8],
    pub(crate) place: Span,
    pub(crate) writes: bool,
    // The number of the command, from 0.
    pub(crate) command: usize,
}

// The uses of a script, in the order of its commands.
pub(crate) fn uses_of<'a>(alloc: Global, script: &'a Script) -> Result<Vec<Use<'a>>, AllocError> {
    let mut uses = Vec::new(alloc);
    let mut first: usize = 0;
    for pipeline in script.pipelines.as_slice() {
        add_pipeline(alloc, pipeline, first, &mut uses)?;
        first = first.saturating_add(pipeline.commands.as_slice().len());
    }
    Ok(uses)
}

// Adds the uses of a pipeline whose first command has this number.
fn add_pipeline<'a>(
    alloc: Global,
    pipeline: &'a Pipeline,
    first: usize,
    uses: &mut Vec<Use<'a>>,
) -> Result<(), AllocError> {
    for (number, command) in pipeline.commands.as_slice().iter().enumerate() {
        let number = first.saturating_add(number);
        if let Some(name) = &command.source {
            add(name, false, number, uses)?;
        }
        if let Some(target) = &command.target {
            add(&target.name, true, number, uses)?;
        }
        if let Ok(spec) = FilterSpec::read(alloc, command.words.as_slice()) {
            add_operands(command, &spec, number, uses)?;
        }
    }
    Ok(())
}

// Adds the operands of a command that are names of files.
fn add_operands<'a>(
    command: &'a Cmd,
    spec: &FilterSpec,
    number: usize,
    uses: &mut Vec<Use<'a>>,
) -> Result<(), AllocError> {
    for word in command.words.as_slice() {
        if is_among(word, spec.output_operands()) {
            add(word, true, number, uses)?;
        } else if word.bytes() != b"-".as_slice() && is_among(word, spec.input_operands()) {
            add(word, false, number, uses)?;
        }
    }
    Ok(())
}

// Whether a word is one of these, at its place.
fn is_among(word: &Word, words: &[Word]) -> bool {
    words.iter().any(|other| other.place() == word.place())
}

// Adds the use of a name by the command of this number.
fn add<'a>(
    name: &'a Word,
    writes: bool,
    command: usize,
    uses: &mut Vec<Use<'a>>,
) -> Result<(), AllocError> {
    if let Some(place) = name.place() {
        uses.push(Use {
            name: name.bytes(),
            place,
            writes,
            command,
        })?;
    }
    Ok(())
}
