//! The digests that a store has of its files.
use crate::fragments::is_lost;
use crate::stored_file::StoredFile;
use store_faults::{FileFault, device};
use store_folder::{SUMS_NAME, Sums, SumsFault, path_in, read_sums};

/// The digests of the store that a file is in; none where it has no file of them, or one of another form. What can't be read isn't taken
/// for nothing.
pub(crate) fn own_sums(
    rt: &HostRuntime,
    file: &StoredFile<'_, '_>,
) -> Result<Option<Sums>, FileFault> {
    let alloc = rt.alloc();
    let path = path_in(alloc, file.folder, SUMS_NAME)?;
    match read_sums(rt, path.as_str(), file.links) {
        Ok(sums) => Ok(Some(sums)),
        Err(SumsFault::OutOfMemory) => Err(FileFault::OutOfMemory),
        Err(SumsFault::Unread { error }) => {
            if is_lost(error.kind()) {
                return Ok(None);
            }
            Err(device(alloc, path.as_str(), error))
        }
        Err(_) => Ok(None),
    }
}
