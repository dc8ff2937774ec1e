//! What is proved of chains of tags, as the contract of a function that does nothing.
ghost use Rattle.std.specs.Prelude.{◌≡◌, ◌≤◌, ℕ, suc};
ghost use Rattle.gix_ref_object.specs.Peeling.{peel, TagTo, Chain, IsNoTag};
ghost use Rattle.gix_ref_object.specs.Peeling.Peeled.{End, TooLong};
ghost use Rattle.gix_ref_object.specs.Objects.{Stored};
ghost use Rattle.gix_ref_hash.specs.declared.hash.ObjectId.{ObjectId};

/// Where a chain of tags ends, of which so many are followed: tags up to that number lead to the object at their end,
/// and one more is too many, as is a tag that names itself.
pub fn ends_of_chains()
    ensures end { (meaning : ObjectId → Stored) (tags n : ℕ) (id end : ObjectId) → n ≤ tags →
        Chain meaning n id end → IsNoTag (meaning end) → peel meaning tags id ≡ End end }
    ensures too_long { (meaning : ObjectId → Stored) (tags : ℕ) (id last : ObjectId) →
        Chain meaning (suc tags) id last → peel meaning tags id ≡ TooLong }
    ensures itself { (meaning : ObjectId → Stored) (tags : ℕ) (id : ObjectId) →
        TagTo meaning id id → peel meaning tags id ≡ TooLong }
{}
