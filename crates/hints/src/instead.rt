// What to use instead of an option that a utility does not have.

// What to use, by the utility and the letter of the option.
const INSTEAD: [(&str, u8, &str); 27] = [
    (
        "cat",
        b'A',
        "the system's cat has it: plrun -c '..' | cat -A",
    ),
    (
        "cat",
        b'E',
        "the system's cat has it: plrun -c '..' | cat -E",
    ),
    (
        "cat",
        b'T',
        "the system's cat has it: plrun -c '..' | cat -T",
    ),
    (
        "cat",
        b'b',
        "the system's cat has it: plrun -c '..' | cat -b",
    ),
    (
        "cat",
        b'e',
        "the system's cat has it: plrun -c '..' | cat -e",
    ),
    (
        "cat",
        b'n',
        "the system's cat has it: plrun -c '..' | cat -n",
    ),
    (
        "cat",
        b's',
        "the system's cat has it: plrun -c '..' | cat -s",
    ),
    (
        "cat",
        b't',
        "the system's cat has it: plrun -c '..' | cat -t",
    ),
    (
        "cat",
        b'v',
        "the system's cat has it: plrun -c '..' | cat -v",
    ),
    ("cut", b'z', NUL),
    (
        "head",
        b'c',
        "the system's head has it: plrun -c '..' | head -c NUMBER",
    ),
    ("head", b'q', "head writes no header if it has one file"),
    ("head", b'v', "the system's head has it: head -v FILE"),
    ("head", b'z', NUL),
    ("paste", b'z', NUL),
    (
        "tail",
        b'F',
        "let the system's tail follow the file: tail -F FILE | plrun -c '..'",
    ),
    (
        "tail",
        b'f',
        "let the system's tail follow the file: tail -f FILE | plrun -c '..'",
    ),
    (
        "tail",
        b'q',
        "leave it out: tail has one file and writes no header",
    ),
    (
        "tail",
        b'r',
        "the system's tac reverses lines: plrun -c '..' | tac",
    ),
    ("tail", b'v', "the system's tail has it: tail -v FILE"),
    ("tail", b'z', NUL),
    (
        "tr",
        b't',
        "leave the bytes of string1 out that have no partner in string2",
    ),
    (
        "uniq",
        b'D',
        "the system's uniq has it: plrun -c '..' | uniq -D",
    ),
    (
        "uniq",
        b'i',
        "the system's uniq has it: plrun -c '..' | uniq -i",
    ),
    (
        "uniq",
        b'w',
        "the system's uniq has it: plrun -c '..' | uniq -w NUMBER",
    ),
    ("uniq", b'z', NUL),
    ("wc", b'L', "the system's wc has it: plrun -c '..' | wc -L"),
];

// How to do without lines that NUL bytes end.
const NUL: &str = "let tr exchange newlines and NUL bytes before and after: tr '\\n\\0' '\\0\\n'";

// What to use, by the utility and the name of a long option that has no letter.
const INSTEAD_OF_LONG: [(&str, &str, &str); 7] = [
    (
        "cut",
        "complement",
        "list the fields to keep, as in cut -f 1-2,4-",
    ),
    (
        "cut",
        "output-delimiter",
        "with -f and -d, a tr that follows can write another one: cut -d , -f 1,3 | tr , ';'",
    ),
    (
        "tail",
        "retry",
        "the system's tail has it: tail --retry FILE | plrun -c '..'",
    ),
    (
        "tail",
        "pid",
        "the system's tail has it: tail --pid=PID -f FILE | plrun -c '..'",
    ),
    (
        "uniq",
        "group",
        "the system's uniq has it: plrun -c '..' | uniq --group",
    ),
    ("wc", "files0-from", "the system's wc has it"),
    ("wc", "total", "the system's wc has it"),
];

// What to use instead of the option of this letter, if that is known.
pub(crate) fn instead_of_letter(utility: &str, letter: u8) -> Option<&'static str> {
    for (name, option, text) in INSTEAD {
        if name == utility {
            if option == letter {
                return Some(text);
            }
        }
    }
    None
}

// What to use instead of the long option of this name, if that is known.
pub(crate) fn instead_of_long(utility: &str, option: &[u8]) -> Option<&'static str> {
    for (name, other, text) in INSTEAD_OF_LONG {
        if name == utility {
            if other.as_bytes() == option {
                return Some(text);
            }
        }
    }
    None
}
