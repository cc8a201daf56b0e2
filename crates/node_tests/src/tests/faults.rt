// The texts of faults: `read NAME` and `write NAME` are the faults of a file, `count NODE` that of a number, `memory` the last.
use super::*;
use collector::RunFault;

#[derive(Drop)]
struct Faults;

fn fault_of(alloc: Global, kind: &str, with: &str) -> Result<RunFault, Fail> {
    Ok(match kind {
        "read" => RunFault::ReadFault(in_name(alloc, with)?),
        "write" => RunFault::WriteFault(out_name(alloc, with, false)?),
        "count" => RunFault::CountTooLarge(with.parse()?),
        _ => RunFault::NoMemory,
    })
}

impl Bench for Faults {
    fn act(&mut self, alloc: Global, action: &str, with: &str) -> Result<Vec<u8>, Fail> {
        shown(alloc, &fault_of(alloc, action, with)?)
    }
}

#[test]
fn texts_of_faults(rt: HostRuntime) -> Result<(), Fail> {
    play(
        rt.alloc(),
        &mut Faults,
        5,
        r"read a%FFb -> F1 ReadFault: a\xFFb
read - -> F1 ReadFault: standard input
write - -> F2 WriteFault: standard output
count 2 -> F3 CountTooLarge in node 2
memory -> F4 NoMemory",
    )
}
