//! What the part of a log's path below `logs/` is.
ghost use Rattle.std.specs.Prelude.{◌≡◌, ◌++◌, ℕ, List, codes};
ghost use Rattle.gix_ref_target.specs.Layout.{Layout};
ghost use Rattle.gix_ref_target.specs.Locations.{paths_at};
ghost use Rattle.gix_ref_reflog.specs.MadeLogs.{below_logs};

/// The path of the log of every name is a folder, `/logs/`, and what the rules of making logs are asked for.
pub fn logs_end_below_logs()
    ensures { (f : Layout) (name : List ℕ) → (folder : List ℕ)
        × ((paths_at f name).log ≡ folder ++ (codes "/logs/" ++ below_logs f.namespace name)) }
{}
