// In the scripts of these tests ? is a file that is not there.
use std::alloc::Global;
use std::process::Abort;
use std::test::Fail;
use test_tables::{Bench, bytes_of, debugged, decoded, halves, play, shown, unknown};

mod circles;
mod memory;
mod places;
mod plans;
mod runs;
mod scripts;
mod sequential;
mod small;
mod whole;

fn are_same(rt: &impl Abort, answer: &[u8], wanted: &[u8], line: &str) {
    assert_eq!(rt; answer, wanted, "{line}");
}
