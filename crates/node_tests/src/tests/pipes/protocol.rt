// Counts, statuses, the names of faults, and bytes found in lines.
ghost use Rattle.std.specs.Prelude.{◌≤◌, length};

use super::holds;
use machine::{NoMemory, Presence, StageFault, add_count, find_from, line_content, status};
use std::process::Abort;
use std::test::Fail;

// The greatest count.
const MOST: u64 = (1 << 63) - 1;

// What two counts add to.
fn adds_to(rt: &impl Abort, one: u64, other: u64, wanted: Result<u64, StageFault>) {
    assert_eq!(rt; add_count(one, other), wanted, "{one} and {other}");
}

#[test]
fn counts_add(rt: HostRuntime) {
    adds_to(&rt, MOST - 1, 1, Ok(MOST));
    adds_to(&rt, MOST, 1, Err(StageFault::CountTooLarge));
    adds_to(&rt, u64::MAX, u64::MAX, Err(StageFault::CountTooLarge));
}

// The status of a filter with these inputs.
fn has_status(rt: &impl Abort, inputs: &[Presence], wanted: u8) {
    assert_eq!(rt; status(inputs), wanted);
}

#[test]
fn a_missing_input_gives_status_one(rt: HostRuntime) {
    has_status(&rt, &[], 0);
    has_status(&rt, &[Presence::Present], 0);
    has_status(&rt, &[Presence::Present, Presence::Missing], 1);
}

#[test]
fn faults_have_their_names(rt: HostRuntime) -> Result<(), Fail> {
    let names = format!(in rt.alloc();
        "{}, {}, {NoMemory}",
        StageFault::CountTooLarge,
        StageFault::NoMemory
    )?;
    holds(
        &rt,
        names.as_bytes(),
        b"CountTooLarge, NoMemory, NoMemory",
        "faults",
    );
    Ok(())
}

// The place of the first newline from a place on.
fn finds(rt: &impl Abort, text: &[u8], at: usize, wanted: Option<usize>)
    requires { at ≤ length text.now }
{
    assert_eq!(rt; find_from(text, at, b'\n'), wanted, "from {at}");
}

#[test]
fn newlines_are_found(rt: HostRuntime) {
    finds(&rt, b"a\nbc\nd", 0, Some(1));
    finds(&rt, b"a\nbc\nd", 2, Some(4));
    finds(&rt, b"a\nbc\nd", 5, None);
}

#[test]
fn lines_have_their_content(rt: HostRuntime) {
    holds(&rt, line_content(b"bc\n"), b"bc", "bc and a newline");
    holds(&rt, line_content(b"d"), b"d", "d");
    holds(&rt, line_content(b"\n"), b"", "a newline");
}
