//! What is proved of texts of loose files, as the contract of a function that does nothing.
ghost use Rattle.std.specs.Prelude.{◌≡◌, ℕ, List, Some};
ghost use Rattle.gix_ref_hash.specs.declared.hash.Kind.{Kind};
ghost use Rattle.gix_ref_target.specs.Targets.{TargetValue};
ghost use Rattle.gix_ref_lookup.specs.LooseText.{HoldsTarget, target_in};

/// What a loose text holds is what is computed from it, and nothing else; so a text holds one target at most.
pub fn loose_texts_are_read()
    ensures held { (kind : Kind) (text : List ℕ) (target : TargetValue) →
        HoldsTarget kind text target → target_in kind text ≡ Some target }
    ensures computed { (kind : Kind) (text : List ℕ) (target : TargetValue) →
        target_in kind text ≡ Some target → HoldsTarget kind text target }
{}
