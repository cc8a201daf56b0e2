ghost use Rattle.graphs.specs.Branches.{SingleBranchesAreForests};
ghost use Rattle.graphs.specs.Orders.{PlannedIsOrder, PlannedIsOne, PlannedByJoins};

/// A planned order puts the writer of each pipe before its reader.
pub fn planned_orders_are_orders()
    ensures { PlannedIsOrder }
{}

/// There is at most one planned order.
pub fn planned_orders_are_one()
    ensures { PlannedIsOne }
{}

/// Planned orders depend on the joined pairs, and not on the list of pipes.
pub fn planned_orders_go_by_what_is_joined()
    ensures { PlannedByJoins }
{}

/// A plan in which each node writes at most one pipe is a forest. So is that of every pipeline without FIFOs and without operands of
/// tee.
pub fn single_branches_are_forests()
    ensures { SingleBranchesAreForests }
{}
