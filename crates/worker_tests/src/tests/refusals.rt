// Runs that are refused something: a thread for a worker, a read or a write. If they cannot go on, the outputs are prefixes of what they should be.
use super::gates::{DoesWithout, Refuses};
use super::rows::{Call, Refused, Row, try_row, try_table};
use super::*;
use network_laws::Outcome;
use std::process::Abort;
use std::sync::Wait;
use std::thread::Threads;
use workers::Open;

// No row below makes this many reads or writes.
const CALLS: u64 = 40;

// The first phase is not begun, so nothing is written.
#[test]
fn a_worker_that_gets_no_thread(rt: HostRuntime) -> Result<(), Fail> {
    let row = Row::new(
        "four stages :: 1 1 :: in=abcd :: mkfifo f; tee f < in | cat > o1 & cat f | cat > o2 :: F4 NoMemory :: o1= o2=",
    );
    for worker in 0..4 {
        try_row(
            &rt,
            rt.alloc(),
            row,
            &[(4, 1), (16, 1024)],
            &Refuses::new(worker, 0),
        )?;
    }
    Ok(())
}

#[test]
fn a_worker_that_gets_no_thread_later(rt: HostRuntime) -> Result<(), Fail> {
    let row = Row::new(
        "four stages :: 1 1 :: in=abcdefghijklmnopqrstuvwxyz :: mkfifo f; tee f < in | cat > o1 & cat f | cat > o2 :: F4 NoMemory :: o1~abcdefghijklmnopqrstuvwxyz o2~abcdefghijklmnopqrstuvwxyz",
    );
    for phases in 1..8 {
        try_row(
            &rt,
            rt.alloc(),
            row,
            &[(1, 1), (4, 1)],
            &Refuses::new(0, phases),
        )?;
    }
    Ok(())
}

// Each worker is refused its thread in turn: from the first phase on, or in later ones.
#[test]
fn a_run_that_does_without_a_thread(rt: HostRuntime) -> Result<(), Fail> {
    let row = Row::new(
        "four stages :: 1 1 :: in=abcdefghijkl :: mkfifo f; tee f < in | cat > o1 & cat f | cat > o2 :: 0 :: o1=abcdefghijkl o2=abcdefghijkl",
    );
    for refused in 0..8 {
        try_row(
            &rt,
            rt.alloc(),
            row,
            &[(1, 1), (4, 1), (4, 1024)],
            &DoesWithout(Refuses::new(refused % 4, refused / 4 * 2)),
        )?;
    }
    Ok(())
}

#[test]
fn a_read_or_a_write_that_fails(rt: HostRuntime) -> Result<(), Fail> {
    let table =
        r"the fourth write :: 1 1 fail-write 4 :: in=abcdef :: cat in > out :: F2 WriteFault: out :: out=abc
the first write :: 3 2 fail-write 1 :: in=abcdef :: cat in | cat > out :: F2 WriteFault: out :: out=
to the standard output :: 1 1 fail-write 2 :: -=abc :: cat :: F2 WriteFault: standard output :: -=a
of one output of two :: 1 1 fail-write 3 :: in=abcdef :: mkfifo f; tee f < in | tr a-f A-F > o1 & cat f > o2 :: F2 WriteFault: .. :: o1~ABC o2~abc
the fourth read :: 1 1 fail-read 4 :: in=abcdef :: cat in | cat > out :: F1 ReadFault: in :: out~abc
the first read :: 16 4096 fail-read 1 :: -=abc :: cat > out :: F1 ReadFault: standard input :: out=
of one input of two :: 1 1 fail-read 5 :: a=abcdef b=12 :: paste a b > out :: F1 ReadFault: .. :: out~abcdef%091
of an output that is held back :: 1 1 held fail-write 4 :: in=abcdef out=old :: cat in > out :: F2 WriteFault: out :: out=old
of one that is held back and appends :: 1 1 held fail-read 4 :: in=abcdef out=old :: cat in >> out :: F1 ReadFault: in :: out=old
a stall :: 1 1 held :: in=a%0Ab%0A out=old :: mkfifo f; tee f < in | tail -n 1 | paste - f > out :: stalled .. :: out=old
a new one :: 1 1 held fail-write 2 :: in=abcdef log=old :: tee out < in > log :: F2 WriteFault: .. :: log=old";
    try_table(
        &rt,
        rt.alloc(),
        11,
        table,
        &[(1, 1), (4, 1), (1, 1024), (4, 1024)],
        &Open,
    )
}

// Runs a row whose call of a number may be refused. Whether it was: then the fault names a file, and the outputs are prefixes.
fn is_refused<R: Abort + Threads + Wait + Sync>(
    rt: &R,
    alloc: Global,
    row: Row,
    workers: usize,
) -> Result<bool, Fail> {
    let settings = row.settings(workers, 1024)?;
    let ran = row.run(rt, alloc, settings, &Open)?;
    if matches!(ran.outcome, Outcome::Faulted { .. }) {
        row.is_cut_short(rt, alloc, &ran)?;
        Ok(true)
    } else {
        row.agrees(rt, alloc, settings, &ran)?;
        Ok(false)
    }
}

// Refuses such calls of a row in turn, until a run makes none of that number, which is answered.
fn refuse_calls<R: Abort + Threads + Wait + Sync>(
    rt: &R,
    alloc: Global,
    row: Row,
    call: Call,
    workers: usize,
) -> Result<u64, Fail> {
    for number in 1..CALLS {
        if !is_refused(rt, alloc, row.refusing(Refused { call, number }), workers)? {
            return Ok(number);
        }
    }
    Ok(CALLS)
}

fn some_were_refused(rt: &impl Abort, unmade: u64, line: &str) {
    assert!(rt; 1 < unmade && unmade < CALLS, "{unmade}: {line}");
}

// Refuses each call of each row of a table in turn.
fn refuse_table<R: Abort + Threads + Wait + Sync>(
    rt: &R,
    alloc: Global,
    table: &str,
    workers: usize,
) -> Result<(), Fail> {
    for line in table.lines() {
        let row = Row::new(line);
        let reads = refuse_calls(rt, alloc, row, Call::Read, workers)?;
        some_were_refused(rt, reads, line);
        let writes = refuse_calls(rt, alloc, row, Call::Write, workers)?;
        some_were_refused(rt, writes, line);
    }
    Ok(())
}

#[test]
fn every_read_and_every_write_is_refused_in_turn(rt: HostRuntime) -> Result<(), Fail> {
    let table =
        r"tee_with_closed_branch :: 1 1 short :: in=x%0Ay%0Az%0A :: mkfifo f; tee f < in | head -n 1 > o1 & cat f > o2 :: 0 :: o1=x%0A o2=x%0Ay%0Az%0A
the same in larger pipes :: 3 2 short :: in=x%0Ay%0Az%0A :: mkfifo f; tee f < in | head -n 1 > o1 & cat f > o2 :: 0 :: o1=x%0A o2=x%0Ay%0Az%0A
missing operands :: 1 1 short :: in=x%0A :: cat nofile in > out :: 1 :: out=x%0A
headers :: 1 1 short :: a=1%0A2%0A b=3%0A :: head -n 1 a nofile b :: 1 :: -===>%20a%20<==%0A1%0A%0A==>%20b%20<==%0A3%0A
headers in large pieces :: 16 4096 short :: a=1%0A2%0A b=3%0A :: head -n 1 a nofile b :: 1 :: -===>%20a%20<==%0A1%0A%0A==>%20b%20<==%0A3%0A
totals :: 1 1 short :: a=1%0A2%0A b=3%0A :: wc -l a b :: 0 :: -=2%20a%0A1%20b%0A3%20total%0A
outputs that are held back :: 1 1 held short :: in=x%0Ay%0Az%0A o2=old :: mkfifo f; tee f < in | head -n 1 > o1 & cat f > o2 :: 0 :: o1=x%0A o2=x%0Ay%0Az%0A
one that is appended to :: 3 2 held short :: in=x%0Ay%0A log=old :: tee -a log < in | wc -l > o1 :: 0 :: log=oldx%0Ay%0A o1=2%0A";
    for workers in [1, 3] {
        refuse_table(&rt, rt.alloc(), table, workers)?;
    }
    Ok(())
}
