// Scripts that are run on one thread, in as many rounds as are enough for the bytes that their pipes carry. A line of the table
// is the greatest number of bytes that a pipe carries in the sequential answer, and then a row, as `BYTES :: ROW`.
use super::rows::{Row, all_tried};
use super::*;
use std::process::Abort;

const ROWS: usize = 25;

const TABLE: &str = r"0 :: cat of nothing :: 16 4096 :: -= :: cat :: 0 :: -=
4 :: upper_case :: 16 4096 :: in=ab1%0A :: tr a-z A-Z < in > out :: 0 :: out=AB1%0A
4 :: upper_case in small pieces :: 1 1 :: in=ab1%0A :: tr a-z A-Z < in > out :: 0 :: out=AB1%0A
8 :: words_on_lines :: 1 1 :: -=one,%20two :: tr -cs '[:alpha:]' '[\n*]' :: 0 :: -=one%0Atwo
13 :: cut_fields :: 1 2 :: -=a:b:c%0Anone%0A:x :: cut -d : -f 3,1 :: 0 :: -=a:c%0Anone%0A%0A
6 :: head_stops_early :: 1 1 :: in=x%0Ay%0Az%0A :: cat in | head -n 1 > out :: 0 :: out=x%0A
6 :: tee_with_closed_branch :: 1 1 :: in=x%0Ay%0Az%0A :: mkfifo f; tee f < in | head -n 1 > o1 & cat f > o2 :: 0 :: o1=x%0A o2=x%0Ay%0Az%0A
7 :: stall_small_pipes :: 1 1 :: in=a%0Ab%0A :: mkfifo f; tee f < in | tail -n 1 | paste - f > out :: stalled [Waiting { node: 0, pipe: 0, full: true }, Waiting { node: 1, pipe: 2, full: true }, Waiting { node: 2, pipe: 1, full: false }, Waiting { node: 3, pipe: 3, full: false }, Waiting { node: 4, pipe: 4, full: false }] :: out=
7 :: no_stall_larger_pipes :: 8 1 :: in=a%0Ab%0A :: mkfifo f; tee f < in | tail -n 1 | paste - f > out :: 0 :: out=b%09a%0A%09b%0A
7 :: pipes_grow to 4 :: 1-4 1 :: in=a%0Ab%0A :: mkfifo f; tee f < in | tail -n 1 | paste - f > out :: 0 :: out=b%09a%0A%09b%0A
7 :: bytes_limit that is enough :: 8 1/4 :: in=a%0Ab%0A :: mkfifo f; tee f < in | tail -n 1 | paste - f > out :: 0 :: out=b%09a%0A%09b%0A
8 :: uniq_counts :: 1 1 :: -=a%0Aa%0Ab :: uniq -c :: 0 :: -=2%20a%0A1%20b%0A
11 :: fold_at_blanks :: 1 1 :: -=ab%20cd%20ef%0A :: fold -s -w 4 :: 0 :: -=ab%20%0Acd%20%0Aef%0A
13 :: wc_counts :: 1 1 :: -=one%20two%0Athree :: wc :: 0 :: -=1%203%2013%0A
2 :: a missing operand :: 1 1 :: in=x%0A :: cat nofile in > out :: 1 :: out=x%0A
2 :: a missing operand, negated :: 1 1 :: in=x%0A :: ! cat nofile in > out :: 0 :: out=x%0A
25 :: head_headers :: 1 1 :: a=1%0A2%0A b=3%0A :: head -n 1 a nofile b :: 1 :: -===>%20a%20<==%0A1%0A%0A==>%20b%20<==%0A3%0A
16 :: wc_totals :: 1 1 :: a=1%0A2%0A b=3%0A :: wc -l a b :: 0 :: -=2%20a%0A1%20b%0A3%20total%0A
8 :: paste_serial :: 1 1 :: in=1%0A2%0A3%0A4%0A :: paste -s -d ',\n' in :: 0 :: -=1,2%0A3,4%0A
2 :: pipelines in the background :: 1 1 :: a=x%0A b=y%0A -=z%0A :: cat a > o1 & tr a-z A-Z < b | cat > o2 & cat :: 0 :: o1=x%0A o2=Y%0A -=z%0A
7 :: two FIFOs into one command :: 1 1 :: a=1%0A2%0A b=3%0A :: mkfifo f g; cat a > f & cat b > g & paste f g > out :: 0 :: out=1%093%0A2%09%0A
3 :: three branches :: 1 1 :: in=abc :: mkfifo f g; tee f g < in > o1 & tr a x < f > o2 & cat g > o3 :: 0 :: o1=abc o2=xbc o3=abc
4 :: what nobody reads :: 1 1 :: in=ab%0A b=xy%0Az :: cat in | cat b | wc -l > out :: 0 :: out=1%0A
10 :: every utility :: 2 3 :: -=b%0Aa%0Aa%0Ac%0A :: cat | tr a-c A-C | cut -b 1 | head -n 9 | tail -n 3 | uniq -c | paste - - | fold -w 4 | tee o | wc -l :: 0 :: o=2%20A%0A%09%0A1%20C%0A -=3%0A
2 :: twenty stages :: 1 1 :: -=ab :: cat|cat|cat|cat|cat|cat|cat|cat|cat|cat|cat|cat|cat|cat|cat|cat|cat|cat|cat|tr a b :: 0 :: -=bb";

// Runs the row of a line, and looks at the result of the run.
fn try_line(rt: &impl Abort, alloc: Global, line: &str) -> Result<(), Fail> {
    let (bytes, row) = halves(line, " :: ");
    let row = Row::new(row);
    let settings = row.settings(1, 1)?;
    let ran = row.run_in_turn(alloc, settings, bytes.parse()?)?;
    row.agrees(rt, alloc, settings, &ran)
}

#[test]
fn enough_rounds_bring_each_run_to_its_end(rt: HostRuntime) -> Result<(), Fail> {
    let mut tried = 0usize;
    for line in TABLE.lines() {
        try_line(&rt, rt.alloc(), line)?;
        tried = tried.saturating_add(1);
    }
    all_tried(&rt, tried, ROWS);
    Ok(())
}
