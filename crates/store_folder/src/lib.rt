//! A store in a folder: each fragment is a file that is named for its stripe and its place, as `note.x1`, or by another pattern.
#![tactic(auto)]

mod described;
mod digesting;
mod exchanging;
mod folder_store;
mod giving;
mod laws;
mod links;
mod listed_fragments;
mod placing;
mod regular;
mod replacing;
mod same;
mod separate;
mod shared;
mod site;
mod sums;
mod surviving;
mod syncing;
mod unfinished;
mod unfinished_file;
mod writing;

pub use described::{digest_of_description, read_description};
pub use digesting::{digest_of, digests_of};
pub use exchanging::exchange_new;
pub use folder_store::FolderStore;
pub use folders::{Identity, SystemFolder, SystemNew, SystemOpen, folder_of, is_absent};
pub use giving::give_name;
pub use laws::goes_on;
pub use links::{Links, followed, look_at, refuse_linked_folders};
pub use placing::{
    NewFile, create_new, create_private, create_tagged, discard_new, place_again, place_new,
    sync_folder,
};
pub use regular::{RegularFile, is_named, open_as, open_regular};
pub use separate::{SeparateFile, SeparateStore};
pub use shared::{Shared, is_name_of_store, name_in};
pub use site::{NO_MEDIUM, Site};
pub use store_names::{
    DESCRIPTION, KEPT, Layout, Part, Pattern, PatternFault, description_names,
    first_description_name, is_description_name, is_folder_of, is_left_by, is_of_runs, lock_name,
    path_in, tag_of_part,
};
pub use store_records::{Described, Digest, MOST_BYTES, Sums, SumsFault, digits_of};
pub use stores::{Found, Placed, StripeFiles};
pub use sums::{SUMS_NAME, read_sums};
pub use surviving::{FileFragment, open_fragment};
pub use syncing::Touched;
pub use unfinished::{Leftover, MOST_OF_LOCK, is_of_run, remove_leftover};
pub use unfinished_file::UnfinishedFile;
pub use writing::write_over;
