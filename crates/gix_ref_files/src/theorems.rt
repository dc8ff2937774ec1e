//! What a loss of power leaves of a disk, as the contract of a function that does nothing.
ghost use Rattle.gix_ref_files.specs.Theorems.{EveryStopIsALoss, EveryLossIsShaped, SettledLosesNothing, EveryChoiceIsALoss, WhatIsLeftIsSettled, SyncsLoseNothing, ClimbsSettle, EveryClimbSettles, FoldersAreThoseOfTheTree};
ghost use Rattle.gix_ref_files.specs.Losing.{UnsyncedLockIsWrong, SyncAtTheEndIsWrong};
ghost use Rattle.gix_ref_files.specs.Removals.{EveryLossInAGroup, EveryGroupSettles};

/// What a loss of power leaves: what a stop leaves, or less, and always a well formed tree; of a settled disk nothing is
/// lost; a loss by a choice of entries and ends is one, and leaves a settled disk; a sync only makes sure; two wrong
/// orders of writes and syncs are refuted; and removals may share their syncs.
pub fn losses_of_power()
    ensures stops { EveryStopIsALoss }
    ensures shaped { EveryLossIsShaped }
    ensures nothing { SettledLosesNothing }
    ensures choice { EveryChoiceIsALoss }
    ensures left { WhatIsLeftIsSettled }
    ensures syncs { SyncsLoseNothing }
    ensures stay { ClimbsSettle }
    ensures climb { EveryClimbSettles }
    ensures folders { FoldersAreThoseOfTheTree }
    ensures unsynced_lock { UnsyncedLockIsWrong }
    ensures sync_at_end { SyncAtTheEndIsWrong }
    ensures in_group { EveryLossInAGroup }
    ensures group { EveryGroupSettles }
{}
