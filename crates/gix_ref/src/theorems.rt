//! What is proved of definitions alone, as contracts of functions that do nothing; and, in `read_back`, of the public contracts of a
//! store alone: what lookups and listings answer after a transaction.
pub use gix_ref_files::theorems::losses_of_power;
pub use gix_ref_follow::laws::ends_of_followings;
pub use gix_ref_hash::laws::digits_of_ids;
pub use gix_ref_log::laws::{lines_read_back, signatures_read_back};
pub use gix_ref_lookup::laws::loose_texts_are_read;
pub use gix_ref_name::laws::shown_names;
pub use gix_ref_object::laws::ends_of_chains;
pub use gix_ref_read_back as read_back;
pub use gix_ref_theory::example::worked_example;
pub use gix_ref_theory::theorems::{
    every_loss, every_stop, every_synced_run, every_tree, places_keep_the_laws,
};
