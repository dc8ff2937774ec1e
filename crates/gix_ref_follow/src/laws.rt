//! What is proved of following alone, as the contract of a function that does nothing.
ghost use Rattle.std.specs.Prelude.{◌≡◌, ◌≤◌, ℕ, List, None, true};
ghost use Rattle.gix_ref_hash.specs.declared.hash.ObjectId.{ObjectId};
ghost use Rattle.gix_ref_target.specs.Targets.TargetValue.{object_id, symbolic_name};
ghost use Rattle.gix_ref_follow.specs.Following.{At, HitsByName, ChainOfSteps, IsStep, following, is_one_of};
ghost use Rattle.gix_ref_follow.specs.Following.EndOfChain.{Reached, Dangling, Circular, TooDeep};

/// How a chain of symbolic references ends: at an object after at most four steps; at a target that no reference has as its
/// name; where the next step leads to a name that an earlier one reached, also the fifth; else after the fifth step.
pub fn ends_of_followings()
    ensures object { (find : HitsByName) (steps : ℕ) (start end : At) (reached : List (List ℕ))
        (id : ObjectId) → steps ≤ 4 → ChainOfSteps find steps start reached end →
        end.target ≡ object_id id → following find start ≡ Reached end id }
    ensures dangling { (find : HitsByName) (steps : ℕ) (start end : At) (reached : List (List ℕ))
        (name : List ℕ) → steps ≤ 4 → ChainOfSteps find steps start reached end → end.target
        ≡ symbolic_name name → find name ≡ None → following find start ≡ Dangling end name }
    ensures circular { (find : HitsByName) (steps : ℕ) (start end next : At) (reached : List
        (List ℕ)) → steps ≤ 4 → ChainOfSteps find steps start reached end → IsStep find end next →
        is_one_of next.name reached ≡ true → following find start ≡ Circular end }
    ensures too_deep { (find : HitsByName) (start end : At) (reached : List (List ℕ)) →
        ChainOfSteps find 5 start reached end → following find start ≡ TooDeep end }
{}
