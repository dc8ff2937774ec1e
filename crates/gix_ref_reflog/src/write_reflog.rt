//! When log lines are written.

/// When log lines are written for updates (`core.logAllRefUpdates` of `git config`). As gix-ref's `store::WriteReflog`.
#[derive(Clone, Copy, Debug, PartialEq, Eq, PartialOrd, Ord, Hash)]
pub enum WriteReflog {
    /// For every reference, also where it had no log.
    Always,
    /// For branches, remote branches, notes, references of worktrees and `HEAD`, and where there is a log already.
    Normal,
    /// Never.
    Disable,
}

/// `Normal`.
impl Default for WriteReflog {
    ghost use Rattle.std.specs.Prelude.{◌≡◌};
    ghost use Rattle.gix_ref_reflog.specs.declared.write_reflog.WriteReflog.TheVariants.{Normal};

    ghost is_default = { λ when. when ≡ Normal };

    fn default() -> WriteReflog {
        WriteReflog::Normal
    }
}
