//! The options of a store.
pub use gix_ref_reflog::write_reflog::WriteReflog;

/// The options of a store. As gix-ref's `store::init::Options`.
#[derive(Clone, Copy, Debug)]
pub struct Options {
    /// When log lines are written.
    pub write_reflog: WriteReflog,
    /// Whether names are composed: those of edits, and those that a lookup asks of records (`core.precomposeUnicode` of
    /// `git config`).
    pub precompose_unicode: bool,
    /// Whether a name with a component such as `CON` is refused.
    pub prohibit_windows_device_names: bool,
}

/// `WriteReflog::Normal`, and both flags off.
impl Default for Options {
    ghost use Rattle.std.specs.Prelude.{◌≡◌};
    ghost use Rattle.gix_ref_store.specs.Options.{default_options};

    ghost is_default = { λ options. options ≡ default_options };

    fn default() -> Options {
        Options {
            write_reflog: WriteReflog::Normal,
            precompose_unicode: false,
            prohibit_windows_device_names: false,
        }
    }
}
