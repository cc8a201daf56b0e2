ghost use Rattle.std.specs.Prelude.{◌≡◌, IfSome, is_some, map, true};
ghost use Rattle.std.specs.List.{flat_map, list_any};
ghost use Rattle.command_line.specs.Faults.{are_alike, names_a_fault, names_all, names_fault, the_faults};

/// What the code of a fault means.
#[derive(Clone, Copy, Debug, PartialEq, Eq)]
pub struct Explanation {
    /// The code of the fault.
    pub code: &'static str,
    /// The name of the fault.
    pub name: &'static str,
    /// What it means, in a sentence or two.
    pub meaning: &'static str,
    /// A command line that has it; `none` if memory would have to be refused.
    pub example: &'static str,
    /// What to do.
    pub advice: &'static str,
}

// What the code of each fault of a script means.
const SCRIPT_FAULTS: [Explanation; 37] = [
    Explanation {
        code: "X1",
        name: "UnclosedQuote",
        meaning: "A quote has no end, or the script ends with a backslash. The byte is the quote or the backslash.",
        example: r#"plrun -c "tr 'a b""#,
        advice: "Close the quote where the word should end.",
    },
    Explanation {
        code: "X2",
        name: "Expansion",
        meaning: "The script asks for an expansion: a $ or a backquote that no single quotes and no backslash quote, or a ~ that begins a word.",
        example: "plrun -c 'cat $HOME/in'",
        advice: "Quote it to mean itself. Otherwise write its value, or let the calling shell expand it.",
    },
    Explanation {
        code: "X3",
        name: "UnsupportedOperator",
        meaning: "This is an operator, a reserved word or a number of a descriptor that plrun does not have, or one that mkfifo or ! does not allow here.",
        example: "plrun -c 'cat a && cat b'",
        advice: "Leave it out, or let sh run the command that needs it, with a plrun for each pipeline. For 2>/dev/null or 2>&1, redirect the standard error of plrun itself.",
    },
    Explanation {
        code: "X4",
        name: "RedirectWithoutWord",
        meaning: "No name follows a redirection.",
        example: "plrun -c 'cat in >'",
        advice: "Write the name of the file or FIFO after it.",
    },
    Explanation {
        code: "X5",
        name: "EmptyCommand",
        meaning: "There is no command where one should be, or one that has no first word.",
        example: "plrun -c 'cat in|'",
        advice: "Write the command, or leave out the sign that asks for one.",
    },
    Explanation {
        code: "X6",
        name: "Assignment",
        meaning: "A command begins with NAME=, which would set a variable. There are no variables.",
        example: "plrun -c 'LC_ALL=C wc in'",
        advice: "Leave it out: plrun is always in the C locale.",
    },
    Explanation {
        code: "X7",
        name: "NoForeground",
        meaning: "The script has no pipeline in the foreground: it is empty, only makes FIFOs, or every pipeline ends with &.",
        example: "plrun -c 'cat in > out &'",
        advice: "Let the last pipeline end without &.",
    },
    Explanation {
        code: "X8",
        name: "OneAfterAnother",
        meaning: "Something follows the pipeline in the foreground. Nothing can run after it.",
        example: "plrun -c 'cat a; cat b'",
        advice: "End the first pipeline with & and give it an output file, so that both run at once. Or give each a plrun of its own.",
    },
    Explanation {
        code: "X9",
        name: "NulByte",
        meaning: "The script has a byte with the value 0.",
        example: r"printf 'cat\0' > job; plrun job",
        advice: "Take the byte out; the file may be no script at all.",
    },
    Explanation {
        code: "X10",
        name: "TooLong",
        meaning: "The script has more than 65536 bytes.",
        example: r#"plrun -c "$(printf '%65537s' cat)""#,
        advice: "Shorten it, or make two scripts of it.",
    },
    Explanation {
        code: "X11",
        name: "RedirectedTwice",
        meaning: "A command has two inputs or two outputs.",
        example: "plrun -c 'cat < a < b'",
        advice: "Keep one of them: cat a b reads two files, and tee writes two.",
    },
    Explanation {
        code: "X12",
        name: "NoMemory",
        meaning: "Memory was refused while the script was read.",
        example: "none",
        advice: "Free memory, or raise its limit (ulimit -v).",
    },
    Explanation {
        code: "A1",
        name: "UnknownUtility",
        meaning: "The command is none of cat, cut, fold, head, paste, tail, tee, tr, uniq and wc.",
        example: "plrun -c 'sort in'",
        advice: "Use one of these, or let sh run the other command, with a pipe to plrun or from it.",
    },
    Explanation {
        code: "A2",
        name: "UnknownOption",
        meaning: "The utility has no such option. plrun has those of POSIX.1-2017 but tail -f, and no others.",
        example: "plrun -c 'head -5 in'",
        advice: "plrun(1) has its options: head -n 5 for head -5. For head -c, cat -n, tail -f or uniq -w, use the system's utility before or after plrun.",
    },
    Explanation {
        code: "A3",
        name: "MissingArgument",
        meaning: "An option has no argument, or an option is missing that the utility needs.",
        example: "plrun -c 'cut -d : in'",
        advice: "Write it: cut -d : -f 1 in.",
    },
    Explanation {
        code: "A4",
        name: "BadNumber",
        meaning: "An argument is no number, or one that is too small or too large: the greatest is 9223372036854775807, and fold takes none below 1.",
        example: "plrun -c 'fold -w 0 in'",
        advice: "Write a number in decimal digits; only tail takes a + or - before it.",
    },
    Explanation {
        code: "A5",
        name: "BadList",
        meaning: "A list of numbers or delimiters is refused. Numbers of cut count from 1, and a range rises; cut -d takes one byte, paste -d at least one.",
        example: "plrun -c 'cut -f 3-1 in'",
        advice: "Write the list as 1,3-5,7- is written.",
    },
    Explanation {
        code: "A6",
        name: "BadSet",
        meaning: "A string of tr is refused: a range falls, a class is unknown or not allowed there, a repeat is too large, or the second string is empty.",
        example: "plrun -c 'tr z-a x'",
        advice: "Turn the range round, or use a class or a repeat that plrun(1) names.",
    },
    Explanation {
        code: "A7",
        name: "ExclusiveOptions",
        meaning: "Two options of the command exclude one another.",
        example: "plrun -c 'wc -c -m in'",
        advice: "Keep one of the two.",
    },
    Explanation {
        code: "A8",
        name: "BadOperands",
        meaning: "There are too few or too many operands, or one that is refused, as a second - or a - of tee.",
        example: "plrun -c 'tr a'",
        advice: "Give the operands that the utility has in plrun(1).",
    },
    Explanation {
        code: "A9",
        name: "NoMemory",
        meaning: "Memory was refused while the words of a command were read.",
        example: "none",
        advice: "Free memory, or raise its limit (ulimit -v).",
    },
    Explanation {
        code: "P1",
        name: "FifoTwice",
        meaning: "mkfifo makes one name twice.",
        example: "plrun -c 'mkfifo f f; cat f'",
        advice: "Make each FIFO once.",
    },
    Explanation {
        code: "P2",
        name: "ManyWriters",
        meaning: "A FIFO is written in more than one place.",
        example: "plrun -c 'mkfifo f; cat a > f & cat b > f & cat f'",
        advice: "Make a FIFO for each writer: cat f g reads both.",
    },
    Explanation {
        code: "P3",
        name: "ManyReaders",
        meaning: "A FIFO is read in more than one place.",
        example: "plrun -c 'mkfifo f; cat a > f & cat f f'",
        advice: "Make a FIFO for each reader, and let tee write to all of them.",
    },
    Explanation {
        code: "P4",
        name: "NoReader",
        meaning: "A FIFO is read nowhere.",
        example: "plrun -c 'mkfifo f; cat a > f & cat b'",
        advice: "Let a command read it, or leave it out.",
    },
    Explanation {
        code: "P5",
        name: "NoWriter",
        meaning: "A FIFO is written nowhere.",
        example: "plrun -c 'mkfifo f; cat f'",
        advice: "Let a command write it, or leave it out.",
    },
    Explanation {
        code: "P6",
        name: "Cycle",
        meaning: "Pipes and FIFOs lead in a circle: a command would have to read its own output.",
        example: "plrun -c 'mkfifo f; cat f > f'",
        advice: "Break the circle: write to a file, and read it with a second plrun.",
    },
    Explanation {
        code: "P7",
        name: "OutputTwice",
        meaning: "A file is written in more than one place.",
        example: "plrun -c 'tee o o'",
        advice: "Give each output a file of its own; cat joins them later.",
    },
    Explanation {
        code: "P8",
        name: "ReadAndWritten",
        meaning: "A file is both read and written.",
        example: "plrun -c 'cat o > o'",
        advice: "Write to another file, and rename it once plrun has ended.",
    },
    Explanation {
        code: "P9",
        name: "LastOutputIsFifo",
        meaning: "The last command of the pipeline in the foreground writes its output to a FIFO.",
        example: "plrun -c 'mkfifo f; cat f > o & cat a > f'",
        advice: "End that pipeline with &, and put the one that reads the FIFO last, without &.",
    },
    Explanation {
        code: "P10",
        name: "AsyncToStdout",
        meaning: "The last command of a pipeline in the background writes to the standard output, where the one in the foreground may write too.",
        example: "plrun -c 'cat a & cat b'",
        advice: "Give it a file or a FIFO, as cat a > out &.",
    },
    Explanation {
        code: "P11",
        name: "TooMany",
        meaning: "The script has more than 256 commands or 1,024 pipes, or a command has more than 32 operands.",
        example: r#"plrun -c "$(printf 'cat|%.0s' $(seq 256))cat""#,
        advice: "Make two scripts of it, with a file between them.",
    },
    Explanation {
        code: "P12",
        name: "NoMemory",
        meaning: "Memory was refused while the plan was made.",
        example: "none",
        advice: "Free memory, or raise its limit (ulimit -v).",
    },
    Explanation {
        code: "D1",
        name: "NotOnePipeline",
        meaning: "--shards is for one pipeline in the foreground, without !, from one input to one output. This script is another one, or has a FIFO, a tee operand, or an input or an output in the middle.",
        example: "plrun --shards -c 'cut -f 1 in | tee copy | uniq'",
        advice: "Write one pipeline that reads its standard input or one file, and only whose last command has an output.",
    },
    Explanation {
        code: "D2",
        name: "NeedsWholeInput",
        meaning: "The first command needs the whole input, so nothing of the script runs on a part of it.",
        example: "plrun --shards -c 'wc -l in | tr 0-9 a-j'",
        advice: "Run the script over the whole input. --hints says why the command needs it.",
    },
    Explanation {
        code: "D3",
        name: "NotWritten",
        meaning: "The commands cannot be written as two scripts again.",
        example: "none",
        advice: "Write the words of the commands more simply.",
    },
    Explanation {
        code: "D4",
        name: "NoMemory",
        meaning: "Memory was refused while the two scripts were made.",
        example: "none",
        advice: "Free memory, or raise its limit (ulimit -v).",
    },
];

// What the code of each fault of files and of a run means.
const RUN_FAULTS: [Explanation; 8] = [
    Explanation {
        code: "O1",
        name: "InputNotOpened",
        meaning: "The file after a < cannot be opened or is a folder, or it is a FIFO or a terminal that is already open as an input. So it is with the standard input. No output was touched.",
        example: "plrun -c 'cat < nofile > out'",
        advice: "Look at the name, and whether it is a file that you may read.",
    },
    Explanation {
        code: "O2",
        name: "OutputNotOpened",
        meaning: "An output cannot be opened, or it is a regular file that is already open as an input or another output. Nothing was written, but without --atomic, outputs that were opened before it may be empty now. With it, the folder must take a new file, and no other run may write the output.",
        example: "plrun -c 'cat in > ./in'",
        advice: "Look at the name and its folder, and whether you may write there. Give each output a file that is neither read nor written elsewhere.",
    },
    Explanation {
        code: "O3",
        name: "NoMemory",
        meaning: "Memory was refused while the files were opened. Nothing was written.",
        example: "none",
        advice: "Free memory, or raise its limit (ulimit -v).",
    },
    Explanation {
        code: "F1",
        name: "ReadFault",
        meaning: "A read of this file failed: its disk may be at fault, or it is the standard input and is closed.",
        example: "plrun -c 'cat' <&-",
        advice: "Look at the file and its disk. The outputs hold a first part; with --atomic each is as it was. Run it again.",
    },
    Explanation {
        code: "F2",
        name: "WriteFault",
        meaning: "A write to this file failed: its disk may be full, or nobody reads the pipe any more. With --atomic, it may also mean that its new file could not be renamed, or its folder not stored after that: the outputs before it in the plan have their new content, and it may have it too.",
        example: "plrun -c 'cat in > /dev/full'",
        advice: "Make room, or look at the reader. The outputs hold a first part; with --atomic each is as it was. Run it again.",
    },
    Explanation {
        code: "F3",
        name: "CountTooLarge",
        meaning: "The node of this number, as --plan counts them from 0, would have to write a number above 9223372036854775807.",
        example: "none",
        advice: "Count smaller parts of the input. The outputs hold a first part; with --atomic each is as it was.",
    },
    Explanation {
        code: "F4",
        name: "NoMemory",
        meaning: "Memory or a thread was refused while the script ran.",
        example: "none",
        advice: "Free memory or raise its limits (ulimit -v, ulimit -u), or take fewer --workers. The outputs hold a first part; with --atomic each is as it was.",
    },
    Explanation {
        code: "S1",
        name: "Stalled",
        meaning: "Commands wait for each other in a circle of full and empty pipes, and no pipe may grow further. Only a script with FIFOs can stall.",
        example: "plrun --capacity 1 --max-capacity 1 --block 1 -c 'mkfifo f; tee f < in | tail -n 1 | paste - f > out'",
        advice: "Raise --block, --max-capacity or --bytes, if below its greatest number. Otherwise, read the input twice in place of tee.",
    },
];

/// What all faults are, in the order of their codes: those of a script, and those of files and of a run.
pub fn explanations() -> [&'static [Explanation]; 2]
    ensures { flat_map (λ faults. map (λ explanation. (explanation.code.now, explanation.name.now)) faults.now) result ≡ the_faults }
{
    [SCRIPT_FAULTS.as_slice(), RUN_FAULTS.as_slice()]
}

// Whether this is the word for all faults.
pub(crate) fn names_all(code: &str) -> bool
    ensures { result ≡ names_all code.now }
{
    are_alike(code, "all")
}

// What a fault means whose code or name this is, if there is one.
pub(crate) fn explanation_of(code: &str) -> Option<Explanation>
    ensures found { is_some result ≡ names_a_fault code.now }
    ensures named { IfSome result
        (λ explanation. names_fault code.now (explanation.code.now, explanation.name.now) ≡ true) }
{
    match explanation_in(&SCRIPT_FAULTS, code) {
        Some(explanation) => Some(explanation),
        None => explanation_in(&RUN_FAULTS, code),
    }
}

// The explanation of the fault whose code or name this is, if it is one of these.
fn explanation_in(explanations: &[Explanation], code: &str) -> Option<Explanation>
    ensures found { is_some result
        ≡ list_any (λ explanation. names_fault code.now (explanation.code.now, explanation.name.now)) explanations.now }
    ensures named { IfSome result
        (λ explanation. names_fault code.now (explanation.code.now, explanation.name.now) ≡ true) }
{
    for explanation in explanations {
        if explanation.is_named(code) {
            return Some(*explanation);
        }
    }
    None
}

impl Explanation {
    // Whether this is the code or the name of the fault, in small letters or in capitals.
    fn is_named(&self, code: &str) -> bool
        ensures { result ≡ names_fault code.now (self.now.code.now, self.now.name.now) }
    {
        are_alike(code, self.code) || are_alike(code, self.name)
    }
}

// Whether two texts are equal but for small letters and capitals.
fn are_alike(text: &str, other: &str) -> bool
    ensures { result ≡ are_alike text.now other.now }
{
    text.eq_ignore_ascii_case(other)
}
