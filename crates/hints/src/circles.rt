// The circle in which the commands of a script wait for one another.
use crate::uses::Use;
use pipeline_text::Script;
use std::alloc::{AllocError, Global};

// That a command writes what another one reads, each by its number from 0.
#[derive(Clone, Copy)]
pub(crate) struct Link {
    writer: usize,
    reader: usize,
    // The numbers of the uses by which a FIFO joins them, if one does.
    pub(crate) uses: Option<(usize, usize)>,
}

// The links of a script with these uses.
fn links_of(alloc: Global, script: &Script, uses: &[Use<'_>]) -> Result<Vec<Link>, AllocError> {
    let mut links = Vec::new(alloc);
    let mut first: usize = 0;
    for pipeline in script.pipelines.as_slice() {
        let commands = pipeline.commands.as_slice().len();
        add_neighbours(first, commands, &mut links)?;
        first = first.saturating_add(commands);
    }
    for (written, one) in uses.iter().enumerate() {
        if one.writes {
            add_readers(written, one, uses, &mut links)?;
        }
    }
    Ok(links)
}

// Adds the links between the commands of a pipeline, which has this many from this number on.
fn add_neighbours(first: usize, commands: usize, links: &mut Vec<Link>) -> Result<(), AllocError> {
    for number in 1..commands {
        let reader = first.saturating_add(number);
        links.push(Link {
            writer: reader.saturating_sub(1),
            reader,
            uses: None,
        })?;
    }
    Ok(())
}

// Adds the links to the readers of a name that is written at this use.
fn add_readers(
    written: usize,
    one: &Use<'_>,
    uses: &[Use<'_>],
    links: &mut Vec<Link>,
) -> Result<(), AllocError> {
    for (read, other) in uses.iter().enumerate() {
        if !other.writes {
            if other.name == one.name {
                links.push(Link {
                    writer: one.command,
                    reader: other.command,
                    uses: Some((written, read)),
                })?;
            }
        }
    }
    Ok(())
}

// Drops the links to commands that write nothing which is read, as often as there are links: those that are left lead to a circle.
fn keep_circles(alloc: Global, links: Vec<Link>) -> Result<Vec<Link>, AllocError> {
    let mut kept = links;
    for _ in 0..kept.len() {
        let next = keep_read(alloc, kept.as_slice())?;
        if next.len() == kept.len() {
            return Ok(kept);
        }
        kept = next;
    }
    Ok(kept)
}

// The links whose reader writes what is read.
fn keep_read(alloc: Global, links: &[Link]) -> Result<Vec<Link>, AllocError> {
    let mut kept = Vec::new(alloc);
    for link in links {
        if links.iter().any(|other| other.writer == link.reader) {
            kept.push(*link)?;
        }
    }
    Ok(kept)
}

// The links of a circle, in its order. Nothing if there is no circle.
pub(crate) fn circle_of(
    alloc: Global,
    script: &Script,
    uses: &[Use<'_>],
) -> Result<Vec<Link>, AllocError> {
    let links = links_of(alloc, script, uses)?;
    let links = keep_circles(alloc, links)?;
    let mut way: Vec<Link> = Vec::new(alloc);
    let mut next = links.as_slice().first();
    // a command comes again at the latest after as many links
    for _ in 0..links.len() {
        let Some(link) = next else {
            break;
        };
        way.push(*link)?;
        let mut others = links.as_slice().iter();
        next = others.find(|other| other.writer == link.reader);
    }
    let Some(last) = way.as_slice().last() else {
        return Ok(way);
    };
    let begin = last_with(way.as_slice(), last.reader);
    match way.as_slice().split_at_checked(begin) {
        Some((_, circle)) => Vec::from_slice(alloc, circle),
        None => Ok(Vec::new(alloc)),
    }
}

// The place of the last link of a way whose writer is the command of this number: the end of the way if there is none.
fn last_with(way: &[Link], writer: usize) -> usize {
    let mut found = way.len();
    for (at, link) in way.iter().enumerate() {
        if link.writer == writer {
            found = at;
        }
    }
    found
}
