// What files in memory hold in their places while outputs are held back.
ghost use Rattle.std.specs.Prelude.{◌≡◌, true, IfOk, OnOk, OnErr, IsSome};
ghost use Rattle.run_types.specs.Placings.{is_held};
ghost use Rattle.file_stores.specs.inner.Memory.{content_of};
ghost use Rattle.file_stores.specs.inner.Former.{former_of, PutsIn};

use crate::contents::Contents;
use command_words::Word;
use machine::NoMemory;
use run_types::Placing;

// What these files hold in their places from now on: what they hold now, if outputs are held back.
pub(crate) fn former_of(contents: &Contents, placing: Placing) -> Result<Option<Contents>, NoMemory>
    ensures ok { IfOk result (λ former. former ≡ former_of placing contents.now) }
    ensures err { OnErr result (is_held placing ≡ true) }
{
    match placing {
        Placing::AsWritten => Ok(None),
        Placing::AtEnd | Placing::AtEndStored => Ok(Some(contents.copied()?)),
    }
}

// Puts what the file of this name holds in its place, if it is there and outputs are held back.
pub(crate) fn put_in(
    former: &mut Option<Contents>,
    contents: &Contents,
    name: &Word,
) -> Result<(), NoMemory>
    ensures ok { OnOk result
        (PutsIn name.now (content_of contents.now name.now) former.old former.new) }
    ensures err { OnErr result (former.new ≡ former.old) }
    ensures needed { OnErr result
        (IsSome former.old × IsSome (content_of contents.now name.now)) }
{
    let Some(content) = contents.get(name.bytes()) else {
        return Ok(());
    };
    match former {
        Some(former) => former.put(name.bytes(), false, content),
        None => Ok(()),
    }
}
