//! The store: folders, loose texts, lookups and listings.

mod buffers;
mod folders;
mod listings;
mod loose;
mod slow;
mod slow_listings;
mod values;
