// paste by columns that no command makes, each a digit that is the number of its input, and without delimiters.
use super::*;
use command_words::Sequence;
use commands::PasteSpec;
use machine::{Pieces, Presence, run_whole};
use pair_filters::Paste;
use pipes::taken_out;

fn columns_by(alloc: Global, digits: &str) -> Result<Vec<usize>, Fail> {
    let mut columns = Vec::new(alloc);
    for byte in digits.as_bytes() {
        columns.push(usize::from(byte.wrapping_sub(b'0')))?;
    }
    Ok(columns)
}

fn spec_by(alloc: Global, is_serial: bool, columns: &str) -> Result<PasteSpec, Fail> {
    let columns = columns_by(alloc, columns)?;
    Ok(PasteSpec {
        delimiters: Sequence::new(alloc),
        is_serial,
        inputs: Sequence::new(alloc),
        columns: Sequence::from_vec(columns),
    })
}

fn pasted(alloc: Global, spec: &PasteSpec, input: &[u8]) -> Result<Vec<u8>, Fail> {
    let machine = Paste::new(alloc, spec, &[Presence::Present])?;
    let mut pieces = Pieces::new(alloc, 1);
    pieces.push_bytes(input)?;
    taken_out(alloc, run_whole(alloc, machine, pieces, 4096)?, b"")
}

// What paste makes of two lines by these columns.
fn makes(
    rt: &impl Abort,
    alloc: Global,
    is_serial: bool,
    columns: &str,
    wanted: &[u8],
) -> Result<(), Fail> {
    let spec = spec_by(alloc, is_serial, columns)?;
    holds(rt, &pasted(alloc, &spec, b"a\nb\n")?, wanted, columns);
    Ok(())
}

#[test]
fn columns_without_an_input(rt: HostRuntime) -> Result<(), Fail> {
    makes(&rt, rt.alloc(), false, "701", b"a\nb\n")?;
    makes(&rt, rt.alloc(), true, "7010", b"ab\n\n")?;
    makes(&rt, rt.alloc(), false, "", b"")
}
