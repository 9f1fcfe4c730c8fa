//! Repairing the stripes of a store: the lost fragments of a stripe are rebuilt from those that survive, window by window, whatever their
//! length. The code is the (6,2,2) code or the (12,2,2) code of Huang et al., "Erasure Coding in Windows Azure Storage", USENIX ATC 2012,
//! sections 2 and 3.
#![tactic(auto)]

mod attempting;
mod combining;
mod consistency;
mod coverage;
mod damage;
mod device_faults;
mod encoding;
mod fewest;
pub mod file_laws;
mod file_reading;
mod length_groups;
mod lengths;
mod losses;
mod making;
mod mending;
mod opening;
mod outcomes;
mod parts;
mod planning;
mod putting;
mod repairing;
mod scrubbing;
mod settings;
mod windows;

pub use consistency::are_consistent;
pub use coverage::is_covered;
pub use damage::{Damage, Suspects, find_damaged, without};
pub use encoding::encode;
pub use fewest::survivors_read;
pub use file_reading::read_file;
pub use length_groups::{LengthGroup, Lengths};
pub use lengths::{StripeLength, stripe_length};
pub use losses::{LostPlaces, have_checks, lost_places};
pub use mending::{MendFault, Survivors, mend};
pub use opening::{Opened, open_survivors};
pub use outcomes::{Finding, Reason, StripeOutcome};
pub use parts::fragment_length;
pub use planning::plan_stripe;
pub use repairing::repair_stripe;
pub use scrubbing::scrub_stripe;
pub use settings::{Reads, Repair};
pub use stores::{
    Found, Fragment, MemoryFragment, MemoryStore, NameFault, NewFragment, Placed, Refused, Store,
    Stripe, StripeFiles,
};
