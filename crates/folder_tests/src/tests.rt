// Two outputs take their places, one over an old file. Each call is refused in turn, and after each call the power fails, with each
// choice of the calls that had reached the disk.
ghost use Rattle.std.specs.Prelude.{◌≡◌, IfOk};

use disk::{left_of, seen_of};
use folders::{
    Access, CallFault, Folder, FolderCall, MemoryFolder, Name, NotPlaced, Output, place_or_leave,
    place_stored, rename_or_leave, store_all, write_new,
};
use held_outputs::{Holding, NotMade};
use memory_disk::MemoryDisk;
use std::alloc::Global;
use std::process::Abort;
use std::test::Fail;

mod disk;
mod memory_disk;

const OLD: &[u8] = b"old";

const ONE: &[u8] = b"the first";

const TWO: &[u8] = b"and the second";

// How the two take their places.
#[derive(Clone, Copy)]
enum Way {
    // With all stores.
    Place,
    // The bytes are stored before.
    PlaceStored,
    // With no store.
    Rename,
}

fn name(alloc: Global, text: &[u8]) -> Result<Name, Fail>
    ensures { IfOk result (λ name. name ≡ text.now) }
{
    Ok(Name::from_vec(Vec::from_slice(alloc, text)?))
}

fn output(alloc: Global, new: &[u8], place: &[u8]) -> Result<Output, Fail>
    ensures { IfOk result (λ output. (output.new ≡ new.now) × (output.place ≡ place.now)) }
{
    Ok(Output {
        new: name(alloc, new)?,
        place: name(alloc, place)?,
    })
}

// A stored file a, and new files for a and b, with what each holds.
fn prepared(alloc: Global) -> Result<MemoryFolder, Fail> {
    let mut folder = MemoryFolder::new(alloc);
    let a = name(alloc, b"a")?;
    write(&mut folder, &a, OLD)?;
    if folder.store(&a).is_err() || folder.store_names().is_err() {
        return Err("the old file was not stored")?;
    }
    write(&mut folder, &name(alloc, b".a")?, ONE)?;
    write(&mut folder, &name(alloc, b".b")?, TWO)?;
    Ok(folder)
}

fn write(folder: &mut MemoryFolder, name: &Name, bytes: &[u8]) -> Result<(), Fail> {
    if write_new(folder, name, bytes).is_err() {
        return Err("a new file was not written")?;
    }
    Ok(())
}

// Places the two. The call after this many others is refused.
fn placed(
    alloc: Global,
    folder: &mut MemoryFolder,
    refused: usize,
    way: Way,
) -> Result<Result<(), NotPlaced>, Fail> {
    let outputs = [output(alloc, b".a", b"a")?, output(alloc, b".b", b"b")?];
    if matches!(way, Way::PlaceStored) && store_all(folder, &outputs).is_err() {
        return Err("the new files were not stored")?;
    }
    folder.refuse_after(refused);
    Ok(match way {
        Way::Place => place_or_leave(folder, &outputs),
        Way::PlaceStored => match place_stored(folder, &outputs) {
            Ok(()) => Ok(()),
            Err(fault) => Err(NotPlaced { fault, left: None }),
        },
        Way::Rename => rename_or_leave(folder, &outputs),
    })
}

fn holds(held: &Option<Vec<u8>>, bytes: Option<&[u8]>) -> bool {
    match (held, bytes) {
        (Some(held), Some(bytes)) => held.as_slice() == bytes,
        (None, None) => true,
        _ => false,
    }
}

// What the two places hold for whoever looks.
fn looks(alloc: Global, calls: &[FolderCall]) -> Result<(bool, bool), Fail> {
    let a = seen_of(alloc, calls, b"a")?;
    let b = seen_of(alloc, calls, b"b")?;
    let are_old = (holds(&a, Some(OLD)), holds(&b, None));
    let are_new = (holds(&a, Some(ONE)), holds(&b, Some(TWO)));
    if are_old.0 == are_new.0 || are_old.1 == are_new.1 {
        return Err("a look found neither the old nor the new")?;
    }
    Ok(are_new)
}

// Whether a power loss leaves each place old or whole. Returns whether it leaves both whole, whatever reached the disk.
fn is_whole(alloc: Global, calls: &[FolderCall]) -> Result<bool, Fail> {
    let mut whole = true;
    for choice in 0..1024u64 {
        // The first four calls were stored.
        let luck = choice << 4;
        let a = left_of(alloc, calls, luck, b"a")?;
        let b = left_of(alloc, calls, luck, b"b")?;
        let are_new = holds(&a, Some(ONE)) && holds(&b, Some(TWO));
        let fits = (holds(&a, Some(OLD)) || holds(&a, Some(ONE)))
            && (holds(&b, None) || holds(&b, Some(TWO)));
        if !fits {
            return Err(Fail::new(format_args!("luck {luck}: {a:?} and {b:?} are left")));
        }
        whole = whole && are_new;
    }
    Ok(whole)
}

// Plays two outputs with one call refused, and looks after each call.
fn play(
    rt: &impl Abort,
    alloc: Global,
    refused: usize,
    way: Way,
) -> Result<(bool, (bool, bool)), Fail> {
    let mut folder = prepared(alloc)?;
    let first = folder.calls().len();
    let result = placed(alloc, &mut folder, refused, way)?;
    let calls = folder.calls();
    let mut last = (false, false);
    for count in first..=calls.len() {
        let now = looks(alloc, &calls[..count])?;
        assert!(rt; now.0 || !now.1, "the second is in place before the first");
        last = now;
        if !matches!(way, Way::Rename) {
            let whole = is_whole(alloc, &calls[..count])?;
            assert!(rt;
                whole || count < calls.len() || result.is_err(),
                "a loss after the end"
            );
        }
    }
    Ok((result.is_ok(), last))
}

#[test]
fn each_call_is_refused_in_turn(rt: HostRuntime) -> Result<(), Fail> {
    let alloc = rt.alloc();
    for (refused, wanted) in [
        (0, (false, (false, false))),
        (1, (false, (false, false))),
        (2, (false, (false, false))),
        (3, (false, (true, false))),
        (4, (false, (true, true))),
        (5, (true, (true, true))),
    ] {
        assert_eq!(rt;
            play(&rt, alloc, refused, Way::Place)?,
            wanted,
            "call {refused} was refused"
        );
    }
    Ok(())
}

#[test]
fn each_rename_is_refused_in_turn(rt: HostRuntime) -> Result<(), Fail> {
    let alloc = rt.alloc();
    for (refused, wanted) in [
        (0, (false, (false, false))),
        (1, (false, (true, false))),
        (2, (true, (true, true))),
    ] {
        assert_eq!(rt;
            play(&rt, alloc, refused, Way::Rename)?,
            wanted,
            "call {refused} was refused"
        );
    }
    Ok(())
}

#[test]
fn each_call_after_the_stores_is_refused_in_turn(rt: HostRuntime) -> Result<(), Fail> {
    let alloc = rt.alloc();
    for (refused, wanted) in [
        (0, (false, (false, false))),
        (1, (false, (true, false))),
        (2, (false, (true, true))),
        (3, (true, (true, true))),
    ] {
        assert_eq!(rt;
            play(&rt, alloc, refused, Way::PlaceStored)?,
            wanted,
            "call {refused} was refused"
        );
    }
    Ok(())
}

#[test]
fn a_taken_name_is_refused_without_a_number(rt: HostRuntime) -> Result<(), Fail> {
    let alloc = rt.alloc();
    let mut folder = MemoryFolder::new(alloc);
    let a = name(alloc, b"a")?;
    assert_eq!(rt; folder.create(&a, Access::Ordinary), Ok(()));
    assert_eq!(rt;
        folder.create(&a, Access::Private),
        Err(CallFault::Refused(None))
    );
    Ok(())
}

#[test]
fn outputs_are_held_over_a_disk_in_memory(rt: HostRuntime) -> Result<(), Fail> {
    let alloc = rt.alloc();
    let folder = MemoryFolder::new(alloc);
    let mut holding = Holding::new(MemoryDisk { folder }, alloc);
    let nowhere = output(alloc, b"/nowhere/at/all/.a.plrun", b"/nowhere/at/all/a")?;
    assert!(rt;
        matches!(
            holding.add(&rt, alloc, &nowhere, &[], true),
            Err(NotMade::Refused)
        )
    );
    assert_eq!(rt; holding.count(), 0);
    assert_eq!(rt; holding.end(0, true), Ok(()));
    assert!(rt; holding.replaced(0).is_none() && !holding.is_there(&rt, 0));
    assert_eq!(rt; holding.place(true), Ok(()));
    assert_eq!(rt; holding.place(false), Ok(()));
    assert_eq!(rt; holding.leave(), None);
    Ok(())
}
