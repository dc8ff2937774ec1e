//! The theorems about a commit at a worked example, as the contract of a function that does nothing.
ghost use Rattle.gix_ref_theory.specs.Example.{ExampleIsPrepared, PlanIsFiveWrites, FourRows, PackedTextsAreThese, PackedFirstIsWrong, ReverseIsWrong, RemovedFirstIsWrong, RemovingModeShowsDeletionFirst, RemovingModeShowsOutOfOrder, StepsCarryOutThePlan, PlacesInLinked};

/// Two updates and a deletion: what each stop shows, why other orders are wrong, and what the removing mode does not
/// promise. And some places of a linked worktree.
pub fn worked_example()
    ensures prepared { ExampleIsPrepared }
    ensures plan { PlanIsFiveWrites }
    ensures rows { FourRows }
    ensures lengths { PackedTextsAreThese }
    ensures packed_first { PackedFirstIsWrong }
    ensures reverse { ReverseIsWrong }
    ensures removed_first { RemovedFirstIsWrong }
    ensures removing_mode { RemovingModeShowsDeletionFirst }
    ensures removing_order { RemovingModeShowsOutOfOrder }
    ensures carried { StepsCarryOutThePlan }
    ensures places { PlacesInLinked }
{}
