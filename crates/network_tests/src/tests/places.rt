// The places of a script: `words SCRIPT` shows each word and each name of a file as it is written, and `fault SCRIPT` the fault of a
// command, and the parts that are at fault.
use super::*;
use command_words::Word;
use pipeline_text::{Cmd, Script, read_script};
use planner::{PlanFault, make_plan};

#[derive(Drop)]
struct Places;

// Adds a part of a text in brackets: nothing in them if there is no part.
fn add_part(out: &mut Vec<u8>, text: &str, part: Option<(usize, usize)>) -> Result<(), Fail> {
    let written = match part {
        Some((start, end)) => text.as_bytes().get(start..end).unwrap_or(b"?"),
        None => b"",
    };
    out.push(b'[')?;
    out.extend_from_slice(written)?;
    out.push(b']')?;
    Ok(())
}

// Adds the part that a word is written in.
fn add_word(out: &mut Vec<u8>, text: &str, word: &Word) -> Result<(), Fail> {
    add_part(out, text, word.place().map(|span| (span.start, span.end)))
}

// Adds the words of a command and the names of its redirections.
fn add_command(out: &mut Vec<u8>, text: &str, command: &Cmd) -> Result<(), Fail> {
    for word in command.words.as_slice() {
        add_word(out, text, word)?;
    }
    if let Some(name) = &command.source {
        add_word(out, text, name)?;
    }
    if let Some(target) = &command.target {
        add_word(out, text, &target.name)?;
    }
    Ok(())
}

// Adds the names of the FIFOs that a script makes.
fn add_fifos(out: &mut Vec<u8>, text: &str, script: &Script) -> Result<(), Fail> {
    for name in script.fifos.as_slice() {
        add_word(out, text, name)?;
    }
    Ok(())
}

// The words of a script.
fn words_of(alloc: Global, text: &str) -> Result<Vec<u8>, Fail> {
    let script = read_script(alloc, text.as_bytes())?;
    let mut out = Vec::new(alloc);
    add_fifos(&mut out, text, &script)?;
    for pipeline in script.pipelines.as_slice() {
        for command in pipeline.commands.as_slice() {
            add_command(&mut out, text, command)?;
        }
    }
    Ok(out)
}

// The fault of a script.
fn fault_of(alloc: Global, text: &str) -> Result<Vec<u8>, Fail> {
    let script = read_script(alloc, text.as_bytes())?;
    let Err(PlanFault::Arg { stage: _, fault }) = make_plan(alloc, &script) else {
        return unknown();
    };
    let mut out = shown(alloc, &fault)?;
    out.push(b' ')?;
    add_part(
        &mut out,
        text,
        fault.place().map(|span| (span.start, span.end)),
    )?;
    if let Some(other) = fault.other() {
        add_part(&mut out, text, Some((other.start, other.end)))?;
    }
    Ok(out)
}

impl Bench for Places {
    fn act(&mut self, alloc: Global, action: &str, with: &str) -> Result<Vec<u8>, Fail> {
        match action {
            "words" => words_of(alloc, with),
            "fault" => fault_of(alloc, with),
            _ => unknown(),
        }
    }
}

#[test]
fn words_know_their_place(rt: HostRuntime) -> Result<(), Fail> {
    play(
        rt.alloc(),
        &mut Places,
        6,
        r#"words cut -f 1 a<b >>c -> [cut][-f][1][a][b][c]
words mkfifo f 'g h'; cat f& tee f|cat -> [f]['g h'][cat][f][tee][f][cat]
words  cat 'a b' "c"d e\ f > 'g'#x # h -> [cat]['a b']["c"d][e\ f]['g'#x]
words cat ''"" 'it'\''s' -> [cat][''""]['it'\''s']
words cat 1>a 0<b 1 c1 -> [cat][1][c1][b][a]
words cat a|>b tr 'x' y -> [cat][a][tr]['x'][y][b]"#,
    )
}

#[test]
fn faults_know_their_place(rt: HostRuntime) -> Result<(), Fail> {
    play(
        rt.alloc(),
        &mut Places,
        38,
        r#"fault cat | sort a -> A1 UnknownUtility [sort]
fault cat -x -> A2 UnknownOption [-x]
fault cat -ux a -> A2 UnknownOption [x]
fault cat '-ux' a -> A2 UnknownOption [x]
fault cat -"ux" a -> A2 UnknownOption [-"ux"]
fault cut -d , -sf -> A3 MissingArgument [f]
fault head -n -> A3 MissingArgument [-n]
fault cut a -> A3 MissingArgument []
fault head -nx a -> A4 BadNumber [x]
fault head -n 5 -n 'x' -> A4 BadNumber ['x']
fault head '-n5k' -> A4 BadNumber [5k]
fault tail -c +x -> A4 BadNumber [+x]
fault fold -w 0 -> A4 BadNumber [0]
fault uniq -s 1 -f a b c -> A4 BadNumber [a]
fault cut -f 1,x,3 -> A5 BadList [x]
fault cut -f '1,3-2' -> A5 BadList [3-2]
fault cut -f1,0-,2 -> A5 BadList [0-]
fault cut -f 1,,2 -> A5 BadList [,]
fault cut -f ,2 -> A5 BadList [,]
fault cut -f '' -> A5 BadList ['']
fault cut -f 1,\x -> A5 BadList [1,\x]
fault cut -d ab -f 1 -> A5 BadList [ab]
fault paste -d '' a b -> A5 BadList ['']
fault tr ab[:up:]c x -> A6 BadSet [[:up:]]
fault tr -d 'xz-a' -> A6 BadSet [z-a]
fault tr a[b*3] x -> A6 BadSet [[b*3]]
fault tr a-z [x*]b[y*] -> A6 BadSet [[y*]]
fault tr a-z A[=b=] -> A6 BadSet [[=b=]]
fault tr [:lower:] [:lower:] -> A6 BadSet [[:lower:]]
fault tr a '' -> A6 BadSet ['']
fault tr a [b*99999] -> A6 BadSet [[b*99999]]
fault cut -sb 1 a -> A7 ExclusiveOptions [-s][b]
fault tail -n 1 -c2 -> A7 ExclusiveOptions [-n][-c]
fault uniq -du -> A7 ExclusiveOptions [-d][u]
fault cat a - b '-' -> A8 BadOperands ['-']
fault tail a b c -> A8 BadOperands [b]
fault uniq a b c -> A8 BadOperands [c]
fault tr -d a b -> A8 BadOperands [b]"#,
    )
}
