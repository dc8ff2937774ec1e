//! What a walk found and the records of `packed-refs`, in the order of their names.
ghost use Rattle.std.specs.Prelude.{◌≡◌};

use crate::found::{Found, FoundByKey};
use crate::own_records::{OwnRecord, OwnRecords};
use gix_ref_lookup::settings::Settings;
use gix_ref_packed::packed::iter::Error;
use std::cmp::Ordering;

/// The next of a listing.
#[derive(Drop)]
pub enum Taken<'p> {
    /// What a walk found.
    Walked(Found),
    /// A record of `packed-refs`, or a line that is no record.
    Packed(Result<OwnRecord<'p>, Error<'p>>),
}

/// What a walk found and the records of `packed-refs`, by ascending names. Where a name has both, the record is passed over.
#[derive(Drop)]
pub struct Merge<'p> {
    pub(crate) found: FoundByKey,
    pub(crate) packed: OwnRecords<'p>,
}

impl<'p> Merge<'p> {
    ghost use Rattle.std.specs.Prelude.{◌≡◌, ◌≤◌, ◌+◌, List, IfNone, IfSome, None};
    ghost use Rattle.gix_ref_name.specs.Names.{full_ref_bytes};
    ghost use Rattle.gix_ref_lookup.specs.Lookups.{meaning_in};
    ghost use Rattle.std.specs.Option.{option_len};
    ghost use Rattle.gix_ref_listing.specs.OwnRecords.{Own, AreAhead, own_of};
    ghost use Rattle.gix_ref_listing.specs.OwedNames.{Given, OwesNames, PaysTaken, with_name};
    ghost use Rattle.gix_ref_listing.specs.PackedTexts.{Text, IsRecordOf};
    ghost use Rattle.gix_ref_listing.specs.Listings.{merged_listing, order_of, TakesFirst, TakesFound, TakesListed, TakesRecord, IsNotLent, merge_left};
    ghost use Rattle.gix_ref_listing.specs.Items.{IsAllowed};
    ghost use Rattle.gix_ref_listing.specs.Steps.{IsDrained};

    /// Whether what was found comes before the next record, is of the same name, or comes after it.
    fn order(&self) -> Ordering
        ensures { result ≡ order_of self.now.found.entries self.now.packed.first }
    {
        let Some((key, _)) = self.found.first_key_value() else {
            return Ordering::Greater;
        };
        match &self.packed.first {
            Some(Ok(own)) => key.as_slice().cmp(own.name.to_path()),
            Some(Err(_)) => Ordering::Greater,
            None => Ordering::Less,
        }
    }

    /// Takes the first that was found.
    fn take_found(&mut self) -> Option<Taken<'p>>
        ensures takes { TakesFirst self.old.found.entries result self.new.found.entries }
        ensures packed { self.new.packed ≡ self.old.packed }
    {
        match self.found.pop_first() {
            Some((_, found)) => Some(Taken::Walked(found)),
            None => None,
        }
    }

    /// The next of the listing.
    pub fn take(&mut self, settings: Settings<'_>) -> Option<Taken<'p>>
        ensures takes { (owns : List Own) → AreAhead settings.entry self.old.packed owns →
            TakesListed settings.entry
            (merged_listing self.old.found.entries owns) result self.new }
        ensures pays { (text : Text) (given : Given) →
            OwesNames settings.entry text given self.old →
            PaysTaken settings.entry text given result self.new }
        ensures found { TakesFound self.old.found.entries result self.new.found.entries }
        ensures left { option_len result + merge_left self.new ≤ merge_left self.old }
        ensures ends { IfNone result (IsDrained self.new) }
        ensures stays_ended { IsDrained self.old → result ≡ None }
    {
        match self.order() {
            Ordering::Less => self.take_found(),
            Ordering::Equal => {
                self.packed.take(settings);
                self.take_found()
            }
            Ordering::Greater => match self.packed.take(settings) {
                Some(item) => Some(Taken::Packed(item)),
                None => None,
            },
        }
    }

    /// The next of the listing, where it is a record of `packed-refs`. `None` where it is anything else, which then stays the
    /// next, and at the end; and always where the store prohibits device names, since a record may be refused for its name then.
    pub fn take_record(&mut self, settings: Settings<'_>) -> Option<OwnRecord<'p>>
        ensures takes { IfSome result (λ own. (owns : List Own) →
            AreAhead settings.entry self.old.packed owns →
            TakesRecord settings.entry (merged_listing self.old.found.entries owns) own self.new) }
        ensures pays { IfSome result (λ own. (text : Text) (given : Given) →
            OwesNames settings.entry text given self.old →
            IsRecordOf settings.entry text (own_of own) × OwesNames settings.entry text
            (with_name (full_ref_bytes own.name) given) self.new) }
        ensures found { self.new.found ≡ self.old.found }
        ensures allowed { IfSome result
            (λ own. IsAllowed (meaning_in settings.entry) (full_ref_bytes own.name)) }
        ensures none { IfNone result ((owns : List Own) →
            AreAhead settings.entry self.old.packed owns →
            IsNotLent settings.entry (merged_listing self.old.found.entries owns)) }
        ensures goes_on { IfSome result (λ _. IsDrained self.old → ⊥) }
        ensures stays { IfNone result (self.new ≡ self.old) }
        ensures left { option_len result + merge_left self.new ≤ merge_left self.old }
    {
        if settings.prohibit_windows_device_names {
            return None;
        }
        match self.order() {
            Ordering::Greater => self.packed.take_record(settings),
            Ordering::Less | Ordering::Equal => None,
        }
    }
}
