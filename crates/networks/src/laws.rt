ghost use Rattle.networks.specs.Bounds.{NothingSpendsNothing};
ghost use Rattle.networks.specs.Quiet.{QuietRoundsAreStuck, QuietSchedulesAreStuck, RoundsGoOn};

use machine::Machine;

/// After a round in which nothing came further nothing can step, and the waits are those of its end.
pub fn quiet_rounds_are_stuck()
    ensures { QuietRoundsAreStuck }
{}

/// Once every node has stepped, in any order, and the network came no further, nothing can step.
pub fn quiet_schedules_are_stuck()
    ensures { QuietSchedulesAreStuck }
{}

/// A round takes no progress back.
pub fn rounds_go_on()
    ensures { RoundsGoOn }
{}

/// If nothing has changed, no round was spent.
pub fn nothing_spends_nothing<M: Machine>()
    ensures { NothingSpendsNothing M.shows }
{}
