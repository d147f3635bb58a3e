//! The laws of interleavings.

ghost use Rattle.bones_commute.specs.Joined.{JoinedNestsRun};
ghost use Rattle.bones_commute.specs.JoinedNests.{JoinedLoopsRun};
ghost use Rattle.bones_commute.specs.Laws.{AllStartsFollow, AllStepsFollow, AllStatesGoOn, AllEndsAreEqual, AllSwap};
ghost use Rattle.bones_commute.specs.Orderly.{OrderlyUnitsPlay, EveryInterleaving, SomeUnitIsOrderly};
ghost use Rattle.bones_commute.specs.Orders.{AnyOrderPlays, SourceOrderPlays, OrderOfTwoPlays};
ghost use Rattle.bones_commute.specs.Sorts.{SortsGather, SortsTrade, SortsKeepValues, SortedUnitsPlay};

/// Where the scripts of a nest's iterations fit its arrays and are apart, the nest begins in a state
/// that follows them, each step keeps to them, and no iteration is ever stuck or faults.
pub fn law_step()
    ensures starts { AllStartsFollow }
    ensures steps { AllStepsFollow }
    ensures goes_on { AllStatesGoOn }
{}

/// Whatever the order of the steps was, the arrays are the same when all iterations are done.
pub fn law_end()
    ensures { AllEndsAreEqual }
{}

/// No play of an orderly unit faults, each can be continued, and each ends in the arrays of the
/// unit's run after as many steps as the run has accesses in parallel nests. There are such units.
pub fn law_plays()
    ensures any_join { OrderlyUnitsPlay }
    ensures of_sums { EveryInterleaving }
    ensures some_unit { SomeUnitIsOrderly }
{}

/// A nest can be played in any order of ranks that names no iteration more often than it has actions. So
/// it can be played one iteration after another; and the nest that joins two, first through all actions
/// of the one and then through those of the other. Both leave the arrays of the source.
pub fn law_orders()
    ensures any { AnyOrderPlays }
    ensures source { SourceOrderPlays }
    ensures two { OrderOfTwoPlays }
{}

/// Two nests, one after another, end where the nest of their pairs of iterations does, if the pairs
/// are apart; and this nest can be played.
pub fn law_joined()
    ensures { JoinedNestsRun }
{}

/// Two actions on different elements, two reads, and two additions do the same in either order.
pub fn law_swap()
    ensures { AllSwap }
{}

/// Whether an array gathers sums, least or greatest values, the order in which values are joined does
/// not matter, and with any list of sorts the plays of an orderly unit end in the arrays of its run.
pub fn law_sorts()
    ensures gathers { SortsGather }
    ensures trades { SortsTrade }
    ensures keeps { SortsKeepValues }
    ensures plays { SortedUnitsPlay }
{}

/// The same of two loops of a unit and the loop whose body is theirs, one after the other: it ends
/// where they did, its iterations make the accesses of theirs, and as a parallel nest it is orderly.
/// The two loops take the same values, and their bodies stay inside: they set no local that is declared
/// outside of them, and add atomically only to arrays that take what the joined nest gathers.
pub fn law_joined_loops()
    ensures { JoinedLoopsRun }
{}
