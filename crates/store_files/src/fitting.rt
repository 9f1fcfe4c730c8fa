//! Whether the fragments of a stripe give the file that its description says.
ghost use Rattle.std.specs.Prelude.{◌≡◌, vec_len};

use crate::choosing::set_that_fits;
use crate::fragments::{Fragments, Missing, open_fragments};
use crate::stored_file::{Sought, StoredFile};
use crate::tries::{Tries, unread_of};
use store_faults::FileFault;
use store_folder::Described;

/// The first of some descriptions of a file that is right for the fragments that are there: these give what it says, or some of them do, as
/// `read` leaves others out. Damage of one that isn't read for that stays unseen. If none is right, and a fragment can't be read, the file
/// may be there with it, and that is the fault.
pub fn fitting_description(
    rt: &HostRuntime,
    file: &StoredFile<'_, '_>,
    said: &[Described],
) -> Result<Option<Described>, FileFault> {
    let mut unread = None;
    for described in said {
        let sought = Sought::new(file, *described);
        let fragments = open_fragments(rt, &sought, Missing::UnreadSaid)?;
        let mut tries = Tries::new(rt.alloc());
        if fits(rt, &sought, &fragments, &mut tries)? {
            return Ok(Some(*described));
        }
        if unread.is_none() {
            unread = unread_of(rt, &sought, fragments, tries)?;
        } else {
            drop(fragments);
            drop(tries);
        }
    }
    unread.map_or(Ok(None), Err)
}

/// Whether some of the fragments give the file. One without bytes has fragments without any: else it would fit whatever is there.
fn fits(
    rt: &HostRuntime,
    sought: &Sought<'_, '_>,
    fragments: &Fragments,
    tries: &mut Tries,
) -> Result<bool, FileFault>
    requires { vec_len fragments.now.opened ≡ 16 }
{
    Ok(fragments.set.len() > 0 && set_that_fits(rt, sought, fragments, tries)?.is_some())
}
