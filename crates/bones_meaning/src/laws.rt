//! The laws of the actions of an iteration.

ghost use Rattle.bones_meaning.specs.Doubling.{DoublingActs};
ghost use Rattle.bones_meaning.specs.Laws.{ActionsGrow, ActionsAreOfRun};

/// With more answers there are only more actions, and a read that had no answer stands where it stood.
/// With the values that the reads of its run gave, an iteration does the accesses of the run in order.
/// Those of one iteration are worked out.
pub fn law_actions()
    ensures grow { ActionsGrow }
    ensures of_run { ActionsAreOfRun }
    ensures example { DoublingActs }
{}
