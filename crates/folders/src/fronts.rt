ghost use Rattle.folders.specs.inner.Fronts.{FrontsAreOldOrWhole};

/// In a front of outputs each place holds what it held, or its whole output, and every other name but the new ones what it held.
pub fn each_front_is_old_or_whole()
    ensures { FrontsAreOldOrWhole }
{}
