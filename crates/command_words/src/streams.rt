// The names of a command's standard input and standard output.
ghost use Rattle.std.specs.Prelude.{◌≡◌};
ghost use Rattle.command_words.specs.Streams.{is_dash, is_number, is_thread, is_of_thread, is_of_descriptors, is_descriptor};
ghost use Rattle.command_words.specs.Streams.{is_input_path, is_output_path, is_standard_input, is_standard_output};

use crate::numbers::read_number;
use crate::texts::same_bytes;

// The folder of the threads of this process (Linux, proc_pid_task).
const THREADS: usize = 16;

// The length of the last part of the folder of a thread's descriptors, which is `/fd/`.
const DESCRIPTORS: usize = 4;

/// Whether a word is `-`.
pub fn is_dash(word: &[u8]) -> bool
    ensures { result ≡ is_dash word.now }
{
    matches!(word, [b'-'])
}

/// Whether a word is a path of the standard input of the process, as `/dev/stdin` (Linux, proc_pid_fd).
#[tactic(auto, unfolding(crate::specs::Streams::is_input_path))]
pub fn is_input_path(word: &[u8]) -> bool
    ensures { result ≡ is_input_path word.now }
{
    same_bytes(word, b"/dev/stdin") || is_descriptor(b'0', word)
}

/// Whether a word is a path of the standard output of the process, as `/dev/stdout` (Linux, proc_pid_fd).
#[tactic(auto, unfolding(crate::specs::Streams::is_output_path))]
pub fn is_output_path(word: &[u8]) -> bool
    ensures { result ≡ is_output_path word.now }
{
    same_bytes(word, b"/dev/stdout") || is_descriptor(b'1', word)
}

/// Whether an operand names the standard input: it is `-` (POSIX.1-2017 XBD 12.2, guideline 13), or a path of it.
pub fn is_standard_input(word: &[u8]) -> bool
    ensures { result ≡ is_standard_input word.now }
{
    is_dash(word) || is_input_path(word)
}

/// Whether an operand names the standard output: it is `-` (POSIX.1-2017 XBD 12.2, guideline 13), or a path of it.
pub fn is_standard_output(word: &[u8]) -> bool
    ensures { result ≡ is_standard_output word.now }
{
    is_dash(word) || is_output_path(word)
}

// Whether a word is the path of the descriptor of this process with this digit.
fn is_descriptor(digit: u8, word: &[u8]) -> bool
    ensures { result ≡ is_descriptor digit word.now }
{
    let folder = word.len().saturating_sub(1);
    is_of_descriptors(&word[..folder]) && same_bytes(&word[folder..], &[digit])
}

// Whether a path is one of the folders of the descriptors of this process.
fn is_of_descriptors(folder: &[u8]) -> bool
    ensures { result ≡ is_of_descriptors folder.now }
{
    same_bytes(folder, b"/dev/fd/")
        || same_bytes(folder, b"/proc/self/fd/")
        || same_bytes(folder, b"/proc/thread-self/fd/")
        || is_of_thread(folder)
}

// Whether it is the folder of the descriptors of a thread, by its number.
fn is_of_thread(folder: &[u8]) -> bool
    ensures { result ≡ is_of_thread folder.now }
{
    let thread = THREADS.min(folder.len());
    same_bytes(&folder[..thread], b"/proc/self/task/") && is_thread(&folder[thread..])
}

// Whether a path is the number of a thread, and its folder of descriptors.
fn is_thread(word: &[u8]) -> bool
    ensures { result ≡ is_thread word.now }
{
    let number = word.len().saturating_sub(DESCRIPTORS);
    same_bytes(&word[number..], b"/fd/") && is_number(&word[..number])
}

// Whether a word is a number.
fn is_number(word: &[u8]) -> bool
    ensures { result ≡ is_number word.now }
{
    read_number(word).is_some()
}
