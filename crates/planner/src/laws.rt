ghost use Rattle.planner.specs.Worked.{WorkedPlans};
ghost use Rattle.planner.specs.Laws.{OpeningsAreOwn, OutputsAreApart, PlansAreOne, PlansAreWired, StagesAreSized, TextsHaveBodies};
ghost use Rattle.planner.specs.Laws.{ScriptsWithoutFifosHaveForests};

/// Worked scripts have the tables and openings that they should have.
pub fn worked_plans_are_right()
    ensures { WorkedPlans }
{}

/// A script has at most one plan.
pub fn plans_are_one()
    ensures { PlansAreOne }
{}

/// The plan of a script is a plan of a graph: each pipe leads from an earlier node to a later one, and each node's pipes are those of
/// the table.
pub fn plans_are_wired()
    ensures { PlansAreWired }
{}

/// The plan of a script that makes no FIFO is a forest, also if tee has operands: each of them is
/// then a file.
pub fn scripts_without_fifos_have_forests()
    ensures { ScriptsWithoutFifosHaveForests }
{}

/// The pipelines of a text's script are pipelines in the background, and then one in the foreground, each of at least one command.
pub fn texts_have_bodies()
    ensures { TextsHaveBodies }
{}

/// Each source that reads something and each sink has one opening, of its name; no opening is for another node.
pub fn openings_are_own()
    ensures { OpeningsAreOwn }
{}

/// No two outputs of a plan write to one destination, the standard output or the file of a name.
pub fn outputs_are_apart()
    ensures { OutputsAreApart }
{}

/// Each stage of a plan has the inputs of its filter, at least one, and at most 33 branches; the node that gives the exit status is a
/// stage.
pub fn stages_are_sized()
    ensures { StagesAreSized }
{}
