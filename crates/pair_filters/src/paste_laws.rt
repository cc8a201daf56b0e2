ghost use Rattle.pair_filters.specs.PasteWants.{PastesWantOpenCells};

/// paste without -s wants the columns of a row in order, each until its line is whole or its input has ended.
pub fn pastes_want_open_cells()
    ensures { PastesWantOpenCells }
{}
