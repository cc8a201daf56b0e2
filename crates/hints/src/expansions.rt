// Hints for what a shell would expand.
use crate::hint::Hint;
use crate::source::part;
use command_words::Span;
use std::io;

// What is in front of an expansion in its command: the first word, and the last one, which may be a part of the same word.
#[derive(Clone, Copy)]
struct Front<'a> {
    utility: &'a [u8],
    last: &'a [u8],
}

// What is in front of the byte with this offset in its command.
fn front_of(text: &[u8], offset: usize) -> Front<'_> {
    let front = part(text, 0, offset);
    let ends = |byte: &u8| matches!(byte, b'|' | b'&' | b';' | b'\n');
    let command = front.rsplit(ends).next().unwrap_or(b"");
    let blank = |byte: &u8| matches!(byte, b' ' | b'\t');
    let utility = command.split(blank).find(|word| !word.is_empty());
    let last = command.rsplit(blank).find(|word| !word.is_empty());
    Front {
        utility: utility.unwrap_or(b""),
        last: last.unwrap_or(b""),
    }
}

// Adds the hint for an expansion at this offset.
pub(crate) fn add_expansion(offset: usize, hint: &mut Hint<'_>) -> io::Result<()> {
    let text = hint.source.text;
    let place = Some(Span {
        start: offset,
        end: offset.saturating_add(1),
    });
    match part(text, offset, text.len()) {
        [b'~', ..] => hint.mark(
            place,
            "nothing is expanded: write the path of the folder, or quote the ~",
        ),
        [b'`', ..] | [b'$', b'(', ..] => hint.mark(
            place,
            "no command is substituted: let the shell do that, or quote it with '",
        ),
        [b'$', b'\'', inner @ ..] => add_quoted(front_of(text, offset), place, inner, hint),
        [b'$', b'"', ..] => hint.mark(place, "$\"..\" is bash's: leave the $ out"),
        [
            b'$',
            b'A'..=b'Z' | b'a'..=b'z' | b'_' | b'0'..=b'9' | b'{',
            ..
        ] => {
            hint.mark(
                place,
                "nothing is expanded: write the value, or quote the $ with '",
            )?;
            hint.advise("if it names an input, let the shell open that: plrun -c '..' < \"$f\"")
        }
        _ => hint.mark(
            place,
            "nothing is expanded: write the value, or quote the $ with '",
        ),
    }
}

// Adds the hint for a text between `$'` and `'`, which begins here.
fn add_quoted(
    front: Front<'_>,
    place: Option<Span>,
    inner: &[u8],
    hint: &mut Hint<'_>,
) -> io::Result<()> {
    let end = inner
        .iter()
        .position(|byte| *byte == b'\'')
        .unwrap_or(inner.len());
    let inner = part(inner, 0, end);
    match (front.utility, front.last, inner) {
        (b"cut" | b"paste", b"-d", b"\\t") => hint.mark(
            place,
            "$'..' is bash's: leave -d out, since a tab is the default",
        ),
        (b"tr", _, _) if is_of_tr(inner) => {
            hint.mark(place, "$'..' is bash's: tr reads the backslash itself")?;
            let mut text = Vec::new(hint.alloc);
            text.push(b'\'')?;
            text.extend_from_slice(inner)?;
            text.push(b'\'')?;
            hint.repair_with("write ", text.as_slice())
        }
        _ => hint.mark(place, "$'..' is bash's: write the byte itself, in quotes"),
    }
}

// Whether a text is one escape that means the same to tr.
fn is_of_tr(text: &[u8]) -> bool {
    matches!(
        text,
        [
            b'\\',
            b'a' | b'b' | b'f' | b'n' | b'r' | b't' | b'v' | b'\\'
        ]
    )
}
