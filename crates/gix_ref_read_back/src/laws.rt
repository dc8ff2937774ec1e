//! Laws of namespaces: what lies in one, and what a transaction leaves outside of it.
ghost use Rattle.gix_ref_read_back.specs.Outside.{PlacesLieInside, LogsLieInTheNamespace, KeysLieInTheNamespace, DeletionsPutNothing, EveryStopLeavesTheOutside, EveryLossLeavesTheOutside, OwnLocksAreLocks, TheseLocksAreLocks, ReadingsOutsideStay, OtherNamespacesStay};

/// The place of each name lies in the namespace of its store, and so do its log and its key. Every stop and every loss of power inside a
/// commit leaves each file and each record outside of the namespace as before, except for locks: in every mode, where the records that it
/// puts into `packed-refs` can be read again, and so where it puts none. So each reference outside of it reads as before, as those of
/// another namespace do.
pub fn outside_is_as_before()
    ensures places { PlacesLieInside }
    ensures logs { LogsLieInTheNamespace }
    ensures keys { KeysLieInTheNamespace }
    ensures deletions { DeletionsPutNothing }
    ensures stops { EveryStopLeavesTheOutside }
    ensures losses { EveryLossLeavesTheOutside }
    ensures own { OwnLocksAreLocks }
    ensures these { TheseLocksAreLocks }
    ensures readings { ReadingsOutsideStay }
    ensures others { OtherNamespacesStay }
{}
