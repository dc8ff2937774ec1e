//! The records of `packed-refs` that a listing gives, with their names.
ghost use Rattle.std.specs.Prelude.{◌≡◌, ◌≤◌, ◌+◌, ℕ, List, Some, MatchOption};
ghost use Rattle.std.specs.Option.{option_map, option_len};
ghost use Rattle.gix_ref_name.specs.Names.{full_ref_bytes};
ghost use Rattle.gix_ref_name.specs.NameGrammar.{IsPartialName};
ghost use Rattle.gix_ref_target.specs.PackedRecords.{Record};
ghost use Rattle.gix_ref_packed.specs.YetToGive.{IsYet};
ghost use Rattle.gix_ref_lookup.specs.Lookups.{meaning_in};
ghost use Rattle.gix_ref_theory.specs.Edits.{is_key};
ghost use Rattle.gix_ref_listing.specs.OwnRecords.{own_name, own_records, records_left, GivesOwn, IsInside};
ghost use Rattle.gix_ref_listing.specs.OwedNames.{Given, OwesOthers, OwesAfter};
ghost use Rattle.gix_ref_listing.specs.PackedTexts.{Text};

use gix_ref_hash::bytes::strip_front;
use gix_ref_lookup::settings::Settings;
use gix_ref_name::name::FullNameRef;
use gix_ref_name::namespace::Namespace;
use gix_ref_packed::packed::Reference;
use gix_ref_packed::packed::iter::{Error, Iter};
use gix_ref_target::layout::packed_key;

/// A record that a listing gives.
#[derive(Clone, Copy)]
pub struct OwnRecord<'p> {
    /// The name: that of the record less the namespace.
    pub name: FullNameRef<'p>,
    /// The record in `packed-refs`.
    pub record: Reference<'p>,
}

/// What follows the namespace, if there is one, in a key.
fn behind_namespace<'a>(namespace: &Option<Namespace>, key: &'a [u8]) -> Option<&'a [u8]>
    ensures { MatchOption result ((rest : List ℕ) → IsInside namespace.now key.now rest → ⊥)
        (λ rest. IsInside namespace.now key.now rest.now) }
{
    match namespace {
        Some(namespace) => strip_front(key, namespace.to_path()),
        None => Some(key),
    }
}

/// Whether `packed-refs` is asked for this key where it is asked for the name.
fn has_key(settings: Settings<'_>, name: FullNameRef<'_>, key: &[u8]) -> bool
    ensures { result
        ≡ is_key ((meaning_in settings.entry).key (full_ref_bytes name.entry)) key.now }
{
    let Some(own) = packed_key(name) else {
        return false;
    };
    match behind_namespace(settings.namespace, key) {
        Some(rest) => own == rest,
        None => false,
    }
}

/// The name inside of the namespace, if there is one.
fn inside_namespace<'a>(
    namespace: &Option<Namespace>,
    key: FullNameRef<'a>,
) -> Option<FullNameRef<'a>>
    ensures { MatchOption result ((rest : List ℕ) → IsPartialName rest →
        IsInside namespace.now (full_ref_bytes key.entry) rest → ⊥)
        (λ name. IsInside namespace.now (full_ref_bytes key.entry) (full_ref_bytes name)) }
{
    match namespace {
        Some(namespace) => key.without_namespace(namespace),
        None => Some(key),
    }
}

/// The name that has this key, where the key is the namespace and the name.
fn name_of_key<'a>(settings: Settings<'_>, key: FullNameRef<'a>) -> Option<FullNameRef<'a>>
    ensures { option_map (λ name. full_ref_bytes name) result
        ≡ own_name settings.entry (full_ref_bytes key.entry) }
{
    let Some(name) = inside_namespace(settings.namespace, key) else {
        return None;
    };
    if has_key(settings, name, key.to_path()) {
        Some(name)
    } else {
        None
    }
}

/// The next record that a listing gives, or the next line that is no record.
fn next_own<'p>(
    settings: Settings<'_>,
    records: &mut Iter<'p>,
) -> Option<Result<OwnRecord<'p>, Error<'p>>>
    ensures gives { (rs : List Record) → IsYet records.old rs →
        GivesOwn settings.entry rs result records.new }
    ensures owes { (text : Text) (given : Given) →
        OwesOthers settings.entry text given (Some records.old) →
        OwesAfter settings.entry text given result (Some records.new) }
    ensures left { option_len result + records_left records.new ≤ records_left records.old }
{
    while let Some(item) = records.next() {
        let record = match item {
            Ok(record) => record,
            Err(error) => return Some(Err(error)),
        };
        if let Some(name) = name_of_key(settings, record.name) {
            return Some(Ok(OwnRecord { name, record }));
        }
    }
    None
}

/// The records that a listing gives, one after the other. The first is read ahead.
#[derive(Drop)]
pub struct OwnRecords<'p> {
    pub(crate) records: Option<Iter<'p>>,
    pub(crate) first: Option<Result<OwnRecord<'p>, Error<'p>>>,
}

impl<'p> OwnRecords<'p> {
    ghost use Rattle.std.specs.Prelude.{◌≡◌, ◌≤◌, ◌+◌, [], List, IfNone, IfSome, None, Some, Ok};
    ghost use Rattle.std.specs.Option.{option_len};
    ghost use Rattle.gix_ref_target.specs.PackedRecords.{Record};
    ghost use Rattle.gix_ref_listing.specs.OwnRecords.{own_of, own_records, Own, YetOf, AreAhead, TakesOwn, ahead_left, records_left_of};
    ghost use Rattle.gix_ref_listing.specs.OwedNames.{Given, OwesOthers, OwesOwn, PaysOwn, with_name};
    ghost use Rattle.gix_ref_listing.specs.PackedTexts.{Text, IsRecordOf};

    /// Those of the records that the iterator is yet to give, if there is one.
    pub fn of(settings: Settings<'_>, records: Option<Iter<'p>>) -> OwnRecords<'p>
        ensures ahead { (rs : List Record) → YetOf records.entry rs →
            AreAhead settings.entry result (own_records settings.entry rs) }
        ensures owes { (text : Text) (given : Given) →
            OwesOthers settings.entry text given records.entry →
            OwesOwn settings.entry text given result }
    {
        let mut own = OwnRecords {
            records,
            first: None,
        };
        own.load(settings);
        own
    }

    /// Reads the next one ahead.
    fn load(&mut self, settings: Settings<'_>)
        ensures ahead { (rs : List Record) → YetOf self.old.records rs →
            AreAhead settings.entry self.new (own_records settings.entry rs) }
        ensures owes { (text : Text) (given : Given) →
            OwesOthers settings.entry text given self.old.records →
            OwesOwn settings.entry text given self.new }
        ensures left { ahead_left self.new ≤ records_left_of self.old.records }
    {
        self.first = match &mut self.records {
            Some(records) => next_own(settings, records),
            None => None,
        };
    }

    /// The next one, or the next line that is no record.
    pub fn take(&mut self, settings: Settings<'_>) -> Option<Result<OwnRecord<'p>, Error<'p>>>
        ensures takes { (owns : List Own) → AreAhead settings.entry self.old owns →
            TakesOwn settings.entry owns result self.new }
        ensures pays { (text : Text) (given : Given) →
            OwesOwn settings.entry text given self.old →
            PaysOwn settings.entry text given result self.new }
        ensures left { option_len result + ahead_left self.new ≤ ahead_left self.old }
        ensures first { result ≡ self.old.first }
        ensures was { IfNone result (self.old.first ≡ None) }
        ensures ends { IfNone result (self.new.first ≡ None) }
        ensures stays_ended { self.old.first ≡ None → result ≡ None }
    {
        let Some(first) = self.first else {
            return None;
        };
        self.load(settings);
        Some(first)
    }

    /// The next one, where it is a record. `None` where it is a line that is no record, which then stays the next, and at the
    /// end.
    pub fn take_record(&mut self, settings: Settings<'_>) -> Option<OwnRecord<'p>>
        ensures takes { IfSome result (λ own. (owns : List Own) → AreAhead settings.entry self.old
            owns → TakesOwn settings.entry owns (Some (Ok own)) self.new) }
        ensures pays { IfSome result (λ own. (text : Text) (given : Given) →
            OwesOwn settings.entry text given self.old →
            IsRecordOf settings.entry text (own_of own) × OwesOwn settings.entry text
            (with_name (full_ref_bytes own.name) given) self.new) }
        ensures was { IfSome result (λ own. self.old.first ≡ Some (Ok own)) }
        ensures none { IfNone result ((owns : List Own) →
            AreAhead settings.entry self.old owns → owns ≡ []) }
        ensures stays { IfNone result (self.new ≡ self.old) }
        ensures left { option_len result + ahead_left self.new ≤ ahead_left self.old }
    {
        let Some(Ok(own)) = self.first else {
            return None;
        };
        self.load(settings);
        Some(own)
    }
}
