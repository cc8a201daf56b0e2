// A look at whether an output can be held back.
use crate::appended::Appended;
use crate::facts::{Facts, Kind};
use crate::links::{Meant, meant_by};
use held_outputs::{
    Holding, NotHeld, NotMade, SystemDisk, can_replace, facts_in, folder_to_store, left_at,
    names_for, old_file, path_of_new,
};
use machine::NoMemory;
use run_types::Placing;
use std::alloc::{AllocError, Global};
use std::fs::File;
use std::rt;

/// Why the output at this path cannot be held back now, if that is so and outputs are to be. A new file is made for a moment, if none is there. No
/// contract says what is found, since the system may change its files at any time.
pub fn why_not_held<R: rt::Files<File = File> + Copy + Drop>(
    rt: &R,
    alloc: Global,
    path: &str,
    append: bool,
    placing: Placing,
) -> Result<Option<NotHeld>, AllocError> {
    let look = HoldingLook {
        rt,
        alloc,
        placing,
        used: &[],
    };
    match look.hold(path, append) {
        Err(NotMade::NoMemory) => Err(AllocError),
        Err(NotMade::NotHeld(why)) => Ok(Some(why)),
        Err(NotMade::Refused) | Ok(()) => Ok(None),
    }
}

// Whether the output at this path can be held back now, if outputs are to be. These files are in use.
pub(crate) fn can_be_held<R: rt::Files<File = File> + Copy + Drop>(
    rt: &R,
    alloc: Global,
    path: &str,
    append: bool,
    placing: Placing,
    used: &[Facts],
) -> Result<bool, NoMemory> {
    let look = HoldingLook {
        rt,
        alloc,
        placing,
        used,
    };
    match look.hold(path, append) {
        Err(NotMade::NoMemory) => Err(NoMemory),
        Err(NotMade::NotHeld(_) | NotMade::Refused) => Ok(false),
        Ok(()) => Ok(true),
    }
}

// A look at outputs that would be held back.
#[derive(Drop)]
struct HoldingLook<'a, R> {
    rt: &'a R,
    alloc: Global,
    placing: Placing,
    // The files that are in use.
    used: &'a [Facts],
}

impl<R: rt::Files<File = File> + Copy + Drop> HoldingLook<'_, R> {
    // Holds back the output at this path for a moment, if outputs are to be.
    fn hold(&self, path: &str, append: bool) -> Result<(), NotMade> {
        if self.placing == Placing::AsWritten {
            return Ok(());
        }
        let Meant::File(place) = meant_by(self.rt, self.alloc, path)? else {
            return Ok(());
        };
        match Facts::at(self.rt, place.as_str()) {
            Some(facts) if facts.kind != Kind::Regular => Ok(()),
            Some(_) if append => self.append_to(place.as_str()),
            _ => self.replace(place.as_str()),
        }
    }

    // Opens the file at this path, to append to it.
    fn append_to(&self, place: &str) -> Result<(), NotMade> {
        Appended::open(self.rt, self.alloc, place)?.leave(self.rt);
        Ok(())
    }

    // Makes a new file for this place and removes it. One that is there stays, if a run could take its name.
    fn replace(&self, place: &str) -> Result<(), NotMade> {
        let path = path_of_new(self.alloc, place)?;
        match left_at(self.rt, path.as_str(), self.used)? {
            Some(left) => self.replace_by(place, &left)?,
            None => self.make(place)?,
        }
        if self.placing == Placing::AtEndStored {
            folder_to_store(self.rt, place)?;
        }
        Ok(())
    }

    // Makes a new file for this place and removes it.
    fn make(&self, place: &str) -> Result<(), NotMade> {
        let mut holding = Holding::new(SystemDisk::new(*self.rt, self.alloc), self.alloc);
        let names = names_for(self.alloc, place)?;
        let added = holding.add(self.rt, self.alloc, &names, self.used, false);
        let _ = holding.leave();
        added.map(|_| ())
    }

    // Looks whether a file next to this place could take it.
    fn replace_by(&self, place: &str, file: &File) -> Result<(), NotMade> {
        match facts_in(&old_file(self.rt, place, self.used)?) {
            Some(old) => Ok(can_replace(Facts::of(file), old)?),
            None => Ok(()),
        }
    }
}
