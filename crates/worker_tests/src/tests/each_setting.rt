// Scripts whose outputs are the same for every number of workers and of turns, and however long a worker is held back.
use super::gates::{Delays, Ticks};
use super::rows::{Row, run_right, try_table};
use super::*;
use std::process::Abort;
use std::sync::Wait;
use std::thread::Threads;
use workers::Open;

// Workers and turns.
const WAYS: [(usize, usize); 8] = [
    (1, 1),
    (2, 1),
    (3, 1),
    (16, 1),
    (1, 1024),
    (2, 1024),
    (3, 1024),
    (16, 1024),
];

const ROWS: usize = 47;

const TABLE: &str = r"cat of nothing :: 16 4096 :: -= :: cat :: 0 :: -=
upper_case :: 16 4096 :: in=ab1%0A :: tr a-z A-Z < in > out :: 0 :: out=AB1%0A
upper_case in small pieces :: 1 1 :: in=ab1%0A :: tr a-z A-Z < in > out :: 0 :: out=AB1%0A
words_on_lines :: 1 1 :: -=one,%20two :: tr -cs '[:alpha:]' '[\n*]' :: 0 :: -=one%0Atwo
cut_fields :: 1 2 :: -=a:b:c%0Anone%0A:x :: cut -d : -f 3,1 :: 0 :: -=a:c%0Anone%0A%0A
head_stops_early :: 1 1 :: in=x%0Ay%0Az%0A :: cat in | head -n 1 > out :: 0 :: out=x%0A
tee_with_closed_branch :: 1 1 :: in=x%0Ay%0Az%0A :: mkfifo f; tee f < in | head -n 1 > o1 & cat f > o2 :: 0 :: o1=x%0A o2=x%0Ay%0Az%0A
the same in larger pipes :: 3 2 :: in=x%0Ay%0Az%0A :: mkfifo f; tee f < in | head -n 1 > o1 & cat f > o2 :: 0 :: o1=x%0A o2=x%0Ay%0Az%0A
no_stall_larger_pipes :: 8 1 :: in=a%0Ab%0A :: mkfifo f; tee f < in | tail -n 1 | paste - f > out :: 0 :: out=b%09a%0A%09b%0A
bytes_limit that is enough :: 8 1/4 :: in=a%0Ab%0A :: mkfifo f; tee f < in | tail -n 1 | paste - f > out :: 0 :: out=b%09a%0A%09b%0A
a piece at a time :: 16 2/2 :: in=x%0Ay%0Az%0A :: mkfifo f; tee f < in | head -n 1 > o1 & cat f > o2 :: 0 :: o1=x%0A o2=x%0Ay%0Az%0A
two pieces at a time :: 16 2/5 :: in=x%0Ay%0Az%0A :: mkfifo f; tee f < in | head -n 1 > o1 & cat f > o2 :: 0 :: o1=x%0A o2=x%0Ay%0Az%0A
paste_pairs :: 1 1 :: -=1%0A2%0A3%0A :: paste - - :: 0 :: -=1%092%0A3%09%0A
uniq_counts :: 1 1 :: -=a%0Aa%0Ab :: uniq -c :: 0 :: -=2%20a%0A1%20b%0A
fold_at_blanks :: 1 1 :: -=ab%20cd%20ef%0A :: fold -s -w 4 :: 0 :: -=ab%20%0Acd%20%0Aef%0A
wc_counts :: 1 1 :: -=one%20two%0Athree :: wc :: 0 :: -=1%203%2013%0A
a missing operand :: 1 1 :: in=x%0A :: cat nofile in > out :: 1 :: out=x%0A
a missing operand, negated :: 1 1 :: in=x%0A :: ! cat nofile in > out :: 0 :: out=x%0A
a missing operand of an earlier stage :: 1 1 :: in=x%0A :: cat nofile in | cat > out :: 0 :: out=x%0A
a missing operand of the last stage :: 1 1 :: in=x%0A :: cat in | cat - nofile > out :: 1 :: out=x%0A
a negated pipeline :: 2 1 :: in=x%0A :: ! cat in | cat > out :: 1 :: out=x%0A
an output in the middle :: 1 1 :: in=ab%0A :: cat in > x | wc -c > y :: 0 :: x=ab%0A y=0%0A
over what a file held :: 1 1 :: in=ab%0A x=old :: cat in > x :: 0 :: x=ab%0A
behind what a file held :: 1 1 :: in=ab%0A x=old :: cat in >> x :: 0 :: x=oldab%0A
tee behind what a file held :: 1 1 :: in=ab%0A x=old :: tee -a x < in :: 0 :: x=oldab%0A -=ab%0A
cut_bytes :: 16 2 :: -=ab%0Acd :: cut -b 2- :: 0 :: -=b%0Ad%0A
tail_from :: 1 1 :: -=a%0Ab%0Ac :: tail -n +2 :: 0 :: -=b%0Ac
tail of no bytes :: 1 1 :: -=abc :: tail -c 0 :: 0 :: -=
head_headers :: 1 1 :: a=1%0A2%0A b=3%0A :: head -n 1 a nofile b :: 1 :: -===>%20a%20<==%0A1%0A%0A==>%20b%20<==%0A3%0A
wc_totals :: 1 1 :: a=1%0A2%0A b=3%0A :: wc -l a b :: 0 :: -=2%20a%0A1%20b%0A3%20total%0A
fold_tabs :: 1 1 :: -=a%09b%0A :: fold -w 8 :: 0 :: -=a%09%0Ab%0A
fold_returns :: 1 1 :: -=%0D%09a%0A :: fold -w 4 :: 0 :: -=%0D%09%0Aa%0A
fold_backspaces :: 1 1 :: -=ab%20%08cdef%0A :: fold -s -w 4 :: 0 :: -=ab%20%08cd%0Aef%0A
paste_serial :: 1 1 :: in=1%0A2%0A3%0A4%0A :: paste -s -d ',\n' in :: 0 :: -=1,2%0A3,4%0A
paste_serial of a missing operand :: 1 1 :: in=1%0A2%0A3%0A4%0A :: paste -s nofile in :: 1 :: -=1%092%093%094%0A
paste of a missing operand :: 1 1 :: in=1%0A2%0A :: paste nofile in :: 1 :: -=
squeeze :: 1 1 :: -=aaabaa :: tr -s a :: 0 :: -=aba
squeeze and translate :: 1 1 :: -=abba :: tr -s ab x :: 0 :: -=x
pipelines in the background :: 1 1 :: a=x%0A b=y%0A -=z%0A :: cat a > o1 & tr a-z A-Z < b | cat > o2 & cat :: 0 :: o1=x%0A o2=Y%0A -=z%0A
an empty input in the background :: 1 1 :: -=z%0A :: cat > o1 & cat > o2 :: 0 :: o1= o2=z%0A
a FIFO from a later pipeline :: 1 1 :: a=ab b=cd :: mkfifo f; cat f > o1 & cat a > f & cat b :: 0 :: o1=ab -=cd
two FIFOs into one command :: 1 1 :: a=1%0A2%0A b=3%0A :: mkfifo f g; cat a > f & cat b > g & paste f g > out :: 0 :: out=1%093%0A2%09%0A
three branches :: 1 1 :: in=abc :: mkfifo f g; tee f g < in > o1 & tr a x < f > o2 & cat g > o3 :: 0 :: o1=abc o2=xbc o3=abc
what nobody reads :: 1 1 :: in=ab%0A b=xy%0Az :: cat in | cat b | wc -l > out :: 0 :: out=1%0A
every utility :: 2 3 :: -=b%0Aa%0Aa%0Ac%0A :: cat | tr a-c A-C | cut -b 1 | head -n 9 | tail -n 3 | uniq -c | paste - - | fold -w 4 | tee o | wc -l :: 0 :: o=2%20A%0A%09%0A1%20C%0A -=3%0A
every utility, in pipes of few bytes :: 16 3/4 :: -=b%0Aa%0Aa%0Ac%0A :: cat | tr a-c A-C | cut -b 1 | head -n 9 | tail -n 3 | uniq -c | paste - - | fold -w 4 | tee o | wc -l :: 0 :: o=2%20A%0A%09%0A1%20C%0A -=3%0A
twenty stages :: 1 1 :: -=ab :: cat|cat|cat|cat|cat|cat|cat|cat|cat|cat|cat|cat|cat|cat|cat|cat|cat|cat|cat|tr a b :: 0 :: -=bb";

#[test]
fn every_setting_gives_the_same_files(rt: HostRuntime) -> Result<(), Fail> {
    try_table(&rt, rt.alloc(), ROWS, TABLE, &WAYS, &Open)
}

#[test]
fn and_so_where_workers_are_held_back(rt: HostRuntime) -> Result<(), Fail> {
    for seed in [1, 2, 3] {
        try_table(&rt, rt.alloc(), ROWS, TABLE, &WAYS, &Delays::new(seed))?;
    }
    Ok(())
}

#[test]
fn and_so_where_workers_do_not_always_pay(rt: HostRuntime) -> Result<(), Fail> {
    for seed in [1, 2, 3] {
        try_table(&rt, rt.alloc(), ROWS, TABLE, &WAYS, &Ticks::new(seed))?;
    }
    Ok(())
}

// Runs each row of a table so often with each of 1 to 4 workers.
fn try_often<R: Abort + Threads + Wait + Sync>(
    rt: &R,
    alloc: Global,
    rows: usize,
    table: &str,
    times: usize,
) -> Result<(), Fail> {
    let ways = [(1, 1024), (2, 1024), (3, 1024), (4, 1024), (4, 1)];
    for seed in 0..times {
        try_table(rt, alloc, rows, table, &ways, &Delays::new(seed))?;
    }
    Ok(())
}

#[test]
fn six_pipes_with_two_outputs_never_stall(rt: HostRuntime) -> Result<(), Fail> {
    let table =
        r"a branch that is closed :: 1 1 :: in=x%0Ay%0Az%0A :: mkfifo f; tee f < in | head -n 1 > o1 & cat f | cat > o2 :: 0 :: o1=x%0A o2=x%0Ay%0Az%0A
the other one :: 1 1 :: in=x%0Ay%0Az%0A :: mkfifo f; head -n 1 f > o1 & tee f < in | cat | cat > o2 :: 0 :: o1=x%0A o2=x%0Ay%0Az%0A
both :: 1 1 :: in=x%0Ay%0Az%0A :: mkfifo f; tee f < in | head -n 1 > o1 & cat f | head -n 2 > o2 :: 0 :: o1=x%0A o2=x%0Ay%0A";
    try_often(&rt, rt.alloc(), 3, table, 20)
}

#[test]
fn small_pipes_stall_on_workers_too(rt: HostRuntime) -> Result<(), Fail> {
    let table =
        r"stall_small_pipes :: 1 1 :: in=a%0Ab%0A :: mkfifo f; tee f < in | tail -n 1 | paste - f > out :: stalled [Waiting { node: 0, pipe: 0, full: true }, Waiting { node: 1, pipe: 2, full: true }, Waiting { node: 2, pipe: 1, full: false }, Waiting { node: 3, pipe: 3, full: false }, Waiting { node: 4, pipe: 4, full: false }] :: out=";
    try_often(&rt, rt.alloc(), 1, table, 10)
}

#[test]
fn full_pipes_grow_on_workers_too(rt: HostRuntime) -> Result<(), Fail> {
    let table =
        r"pipes_grow to 4 :: 1-4 1 :: in=a%0Ab%0A :: mkfifo f; tee f < in | tail -n 1 | paste - f > out :: 0 :: out=b%09a%0A%09b%0A
pipes_grow to the most :: 1-4096 1 :: in=a%0Ab%0A :: mkfifo f; tee f < in | tail -n 1 | paste - f > out :: 0 :: out=b%09a%0A%09b%0A
pipes_grow to 2 :: 1-2 1 :: in=a%0Ab%0A :: mkfifo f; tee f < in | tail -n 1 | paste - f > out :: stalled [Waiting { node: 1, pipe: 2, full: true }, Waiting { node: 2, pipe: 1, full: false }, Waiting { node: 3, pipe: 3, full: false }, Waiting { node: 4, pipe: 4, full: false }] :: out=
pipes_grow to 3 :: 1-3 1 :: in=a%0Ab%0A :: mkfifo f; tee f < in | tail -n 1 | paste - f > out :: stalled [Waiting { node: 1, pipe: 2, full: true }, Waiting { node: 2, pipe: 1, full: false }, Waiting { node: 3, pipe: 3, full: false }, Waiting { node: 4, pipe: 4, full: false }] :: out=";
    try_often(&rt, rt.alloc(), 4, table, 10)
}

// Two or three bytes are in the pipe of the FIFO. Its writer holds the next one, and the source has ended.
#[test]
fn pipes_of_few_bytes_stall_on_workers_too(rt: HostRuntime) -> Result<(), Fail> {
    let table =
        r"bytes_limit of 2 :: 8 1/2 :: in=a%0Ab%0A :: mkfifo f; tee f < in | tail -n 1 | paste - f > out :: stalled [Waiting { node: 1, pipe: 2, full: true }, Waiting { node: 2, pipe: 1, full: false }, Waiting { node: 3, pipe: 3, full: false }, Waiting { node: 4, pipe: 4, full: false }] :: out=
bytes_limit of 3 :: 8 1/3 :: in=a%0Ab%0A :: mkfifo f; tee f < in | tail -n 1 | paste - f > out :: stalled [Waiting { node: 1, pipe: 2, full: true }, Waiting { node: 2, pipe: 1, full: false }, Waiting { node: 3, pipe: 3, full: false }, Waiting { node: 4, pipe: 4, full: false }] :: out=";
    try_often(&rt, rt.alloc(), 2, table, 10)
}

// Of a million bytes two are taken, one is in the pipe, and one is held.
#[test]
fn a_source_reads_no_more_than_is_wanted(rt: HostRuntime) -> Result<(), Fail> {
    let rest = vec![in rt.alloc(); b'y'; 999998]?;
    let rest = str::from_utf8(rest.as_slice()).unwrap_or("");
    let line = format!(in rt.alloc();
        "reads_stop_early :: 1 1 :: in=x%0A{rest} :: head -n 1 < in > out :: 0 :: out=x%0A"
    )?;
    let row = Row::new(line.as_str());
    for (workers, turns) in WAYS {
        let files = run_right(&rt, rt.alloc(), row, workers, turns, &Open)?;
        assert!(rt; files.reads() <= 4, "{workers} workers, {turns} turns");
    }
    Ok(())
}
