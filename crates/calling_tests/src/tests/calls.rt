// A call of each example.
use super::*;

#[test]
fn a_script_is_read(rt: HostRuntime) -> Result<(), Fail> {
    let _script = script_of(rt.alloc(), "cat in | wc -l")?;
    Ok(())
}

#[test]
fn a_run_on_threads(rt: HostRuntime) -> Result<(), Fail> {
    let outcome = run_upper(&rt, rt.alloc())?;
    assert!(rt; matches!(outcome, Outcome::Finished { status: 0 }));
    Ok(())
}

#[test]
fn a_run_to_its_end(rt: HostRuntime) -> Result<(), Fail> {
    let mut files = MemoryFiles::new(rt.alloc());
    files.add(b"in", b"ab1\n")?;
    let outcome = run_to_the_end(rt.alloc(), "tr a-z A-Z < in > out", 4, &mut files)?;
    assert!(rt; matches!(outcome, Some(Outcome::Finished { status: 0 })));
    assert_eq!(rt; files.content(b"out"), Some(b"AB1\n".as_slice()));
    Ok(())
}

#[test]
fn the_rounds_that_are_enough(rt: HostRuntime) -> Result<(), Fail> {
    let plan = plan_of(rt.alloc(), "tr a-z A-Z < in > out")?;
    assert_eq!(rt; enough_rounds(&plan, 4), Some(52));
    assert_eq!(rt; enough_rounds(&plan, u64::MAX), None);
    Ok(())
}

#[test]
fn a_run_on_one_thread(rt: HostRuntime) -> Result<(), Fail> {
    let mut files = MemoryFiles::new(rt.alloc());
    files.add(b"in", b"ab1\n")?;
    let outcome = run_alone(rt.alloc(), "tr a-z A-Z < in > out", &mut files)?;
    assert!(rt; matches!(outcome, Some(Outcome::Finished { status: 0 })));
    assert_eq!(rt; files.content(b"out"), Some(b"AB1\n".as_slice()));
    Ok(())
}

#[test]
fn a_run_of_the_program(rt: HostRuntime) -> Result<(), Fail> {
    let mut files = MemoryFiles::new(rt.alloc());
    files.add(b"in", b"ab1\n")?;
    let mut errors = Vec::new(rt.alloc());
    let status = run_words(&rt, rt.alloc(), &mut files, &mut errors);
    assert_eq!(rt; status, 0u8);
    assert_eq!(rt; errors.as_slice(), b"".as_slice());
    assert_eq!(rt; files.content(b"out"), Some(b"AB1\n".as_slice()));
    Ok(())
}

#[test]
fn an_output_that_is_refused(rt: HostRuntime) -> Result<(), Fail> {
    let mut files = MemoryFiles::new(rt.alloc());
    files.add(b"in", b"ab1\n")?;
    files.add(b"out", b"old")?;
    files.forbid(b"out")?;
    let mut errors = Vec::new(rt.alloc());
    let status = run_words(&rt, rt.alloc(), &mut files, &mut errors);
    assert_eq!(rt; status, 2u8);
    assert_eq!(rt;
        errors.as_slice(),
        b"plrun: O2 OutputNotOpened: out\n".as_slice()
    );
    assert_eq!(rt; files.content(b"out"), Some(b"old".as_slice()));
    Ok(())
}

#[test]
fn a_watched_run(rt: HostRuntime) -> Result<(), Fail> {
    let mut files = MemoryFiles::new(rt.alloc());
    files.add(b"in", b"ab1\n")?;
    let mut errors = Vec::new(rt.alloc());
    let (status, files) = run_watched(&rt, rt, files, &mut errors);
    assert_eq!(rt; status, 0u8);
    assert_eq!(rt; files.content(b"out"), Some(b"AB1\n".as_slice()));
    Ok(())
}
