// That the workers run at the same time, and that they do the work.
use super::gates::{Counted, Counts, Meeting, Ticks};
use super::rows::{Row, run_right};
use super::*;
use std::alloc::Global;
use std::process::Abort;
use std::sync::Wait;
use std::thread::Threads;

// Two workers that each wait for the other one meet only if both run.
#[test]
fn workers_meet(rt: HostRuntime) -> Result<(), Fail> {
    let row = Row::new("two stages :: 16 4096 :: in=x%0A :: cat < in | cat > out :: 0 :: out=x%0A");
    let meeting = Meeting::new();
    run_right(&rt, rt.alloc(), row, 2, 1024, &meeting)?;
    assert!(rt; meeting.have_met());
    Ok(())
}

// What the gate counts in a run of four stages, over 100 pieces that each pipe has room for.
fn counted<R: Abort + Threads + Wait + Sync>(
    rt: &R,
    alloc: Global,
    workers: usize,
    turns: usize,
) -> Result<Counted, Fail> {
    let row = Row::new(
        r"four stages :: 200 1 :: in=0123456789012345678901234567890123456789012345678901234567890123456789012345678901234567890123456789 :: cat in | cat | cat | wc -c > out :: 0 :: out=100%0A",
    );
    let counts = Counts::new();
    run_right(rt, alloc, row, workers, turns, &counts)?;
    Ok(counts.counted())
}

// Between phases each stage steps once, and it takes two steps for a piece. So there are some 200
// phases if the workers do not step the stages; otherwise a phase for each stage is enough, and
// some for the source, the sink, and the end.
#[test]
fn workers_step_the_stages(rt: HostRuntime) -> Result<(), Fail> {
    for workers in [1, 2, 3, 4, 16] {
        let Counted {
            phases,
            later_turns,
            ..
        } = counted(&rt, rt.alloc(), workers, 1024)?;
        assert!(rt;
            phases < 50 && later_turns >= 100,
            "{workers} workers, {phases} phases"
        );
    }
    Ok(())
}

// A line that has the script of four stages over 2,000 pieces, in pipes that hold four.
fn many_pieces(alloc: Global) -> Result<String, Fail> {
    let input = vec![in alloc; b'x'; 2000]?;
    let input = str::from_utf8(input.as_slice()).unwrap_or("");
    Ok(format!(in alloc;
        "many pieces :: 4 1 :: in={input} :: cat in | cat | cat | wc -c > out :: 0 :: out=2000%0A"
    )?)
}

// The workers often wait for one another there. That ends no phase, as long as one of them moves.
#[test]
fn a_phase_goes_on_while_something_moves(rt: HostRuntime) -> Result<(), Fail> {
    let line = many_pieces(rt.alloc())?;
    for workers in [1, 2, 4] {
        let counts = Counts::new();
        let row = Row::new(line.as_str());
        run_right(&rt, rt.alloc(), row, workers, 1_000_000, &counts)?;
        let phases = counts.counted().phases;
        assert!(rt; phases < 5, "{workers} workers, {phases} phases");
    }
    Ok(())
}

// With a clock the workers are tried, and a phase with them ends once its time has come. A look at this clock takes long.
#[test]
fn a_phase_ends_in_time(rt: HostRuntime) -> Result<(), Fail> {
    let line = many_pieces(rt.alloc())?;
    for workers in [1, 2, 4] {
        let ticks = Ticks::new(workers);
        let row = Row::new(line.as_str());
        run_right(&rt, rt.alloc(), row, workers, 1_000_000, &ticks)?;
        let phases = ticks.phases();
        assert!(rt; phases > 1, "{workers} workers, {phases} phases");
    }
    Ok(())
}

// With one turn a phase, each worker passes the gate once in each phase. There are no more workers than stages.
#[test]
fn each_worker_passes_the_gate_before_each_turn(rt: HostRuntime) -> Result<(), Fail> {
    for (workers, begin) in [(1, 1), (3, 3), (4, 4), (16, 4)] {
        let Counted {
            phases,
            begun,
            first_turns,
            later_turns,
        } = counted(&rt, rt.alloc(), workers, 1)?;
        let wanted = phases.saturating_mul(begin);
        assert_eq!(rt;
            (begun, first_turns, later_turns),
            (wanted, wanted, 0),
            "{workers} workers"
        );
    }
    Ok(())
}
