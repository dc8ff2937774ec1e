//! The theorems of the store, as contracts of functions that do nothing.
ghost use Rattle.gix_ref_theory.specs.LockPlaces.{NoLockIsBelowAnother, NoLockIsBelowThatOfPackedRefs};
ghost use Rattle.gix_ref_theory.specs.Roots.{PlacesSettle};
ghost use Rattle.gix_ref_theory.specs.Theorems.{EveryStopIsBetween, NoDeletionShowsFirst, UpdatesShowInOrder, WholePlanCommits, PlanSeesNoLocks, MergedRecordsAreOne, PathsAreTheTable, SafeNamesAreTested, PlacesKeepTheLaws, OnePlaceHasOneLog, OneLogHasOnePlace, PlacesLieInTheNamespace};
ghost use Rattle.gix_ref_theory.specs.Losses.{EveryLossIsBetween, EveryLossAmongIsBetween, EveryWholeRunIsKept, StopLogsAreBetween};
ghost use Rattle.gix_ref_theory.specs.OnDisks.{EveryDiskIsWithin, LockRemovalsKeepWithin, EveryLossWithin, EveryLossIsInOneWrite, EveryRunSettles, EveryDoneRunIsKept, OwnStepsWriteNothing, SyncsWriteNothing};
ghost use Rattle.gix_ref_theory.specs.SmallCommit.{SmallCommitIsCarriedOut};
ghost use Rattle.gix_ref_theory.specs.OnRealTrees.{EveryTreeIsBetween, EveryEndIsBetween, EveryWholeRunCommits, FoldersHoldNoFile};

/// What a stop inside a commit leaves: each reference as before or as edited, no deletion before every update, the
/// updates in their order; and the successor after the whole plan, whose `packed-refs` is determined.
pub fn every_stop()
    ensures between { EveryStopIsBetween }
    ensures no_deletion_first { NoDeletionShowsFirst }
    ensures in_order { UpdatesShowInOrder }
    ensures committed { WholePlanCommits }
    ensures no_locks { PlanSeesNoLocks }
    ensures one_text { MergedRecordsAreOne }
{}

/// The same on real trees, with folders and locks in them, where the steps of a run carry out the plan: for every stop,
/// for the end by a fault or by a step that cannot be done, and for the whole run.
pub fn every_tree()
    ensures stopped { EveryTreeIsBetween }
    ensures ended { EveryEndIsBetween }
    ensures committed { EveryWholeRunCommits }
    ensures folders { FoldersHoldNoFile }
{}

/// What a loss of power inside a commit on a real disk leaves, where the steps with their syncs carry out the plan: as for a
/// stop, but that a log may have other bytes in place of the line that was being written. A whole run is kept: a loss after it
/// leaves what was committed.
pub fn every_loss()
    ensures between { EveryLossIsBetween }
    ensures among { EveryLossAmongIsBetween }
    ensures kept { EveryWholeRunIsKept }
    ensures stop_logs { StopLogsAreBetween }
{}

/// What a loss of power among steps with their syncs leaves, for every list of writes: some of them are done and settled, and
/// one alone is in question; and steps on own locks and on folders, and syncs, write nothing. The premises can be met.
pub fn every_synced_run()
    ensures within { EveryDiskIsWithin }
    ensures removal { LockRemovalsKeepWithin }
    ensures losses { EveryLossWithin }
    ensures in_one { EveryLossIsInOneWrite }
    ensures settles { EveryRunSettles }
    ensures done { EveryDoneRunIsKept }
    ensures own { OwnStepsWriteNothing }
    ensures syncs { SyncsWriteNothing }
    ensures small_commit { SmallCommitIsCarriedOut }
{}

/// The places of references are those of the table, they keep the laws that `every_stop` asks for, and each lies in the
/// namespace. Each is settled by the syncs of its folders, up to the git folder or the common folder.
pub fn places_keep_the_laws()
    ensures table { PathsAreTheTable }
    ensures safe { SafeNamesAreTested }
    ensures laws { PlacesKeepTheLaws }
    ensures one_log { OnePlaceHasOneLog }
    ensures one_place { OneLogHasOnePlace }
    ensures namespaces { PlacesLieInTheNamespace }
    ensures settle { PlacesSettle }
    ensures locks { NoLockIsBelowAnother }
    ensures packed_lock { NoLockIsBelowThatOfPackedRefs }
{}
