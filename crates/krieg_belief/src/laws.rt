ghost use Rattle.krieg_belief.specs.Laws.{ShownAreOnce};

/// The law that the games that a sheet's answer shows are the only ones: any two lists of the least game for each
/// possible position, in the order of these, are the same list.
pub fn shown_law()
    ensures { ShownAreOnce }
{}
