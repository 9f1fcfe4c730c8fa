//! Whether there is anything of a file that could be taken out of a store.
use crate::own_code::{OwnStripe, files_of};
use crate::own_folders::has_own_folders;
use crate::removing::has_any;
use store_faults::FileFault;
use store_files::{Target, staged_name};

/// Whether there is a file of the name's stripe, or of the one that was to replace it, or a folder that one of them has alone.
pub fn has_left(rt: &HostRuntime, target: &Target<'_>, name: &str) -> Result<bool, FileFault> {
    let alloc = rt.alloc();
    if !target.has_names(alloc, name)? {
        return Ok(false);
    }
    let staged = staged_name(alloc, name)?;
    let staged = staged.as_str();
    Ok(has_some(rt, target, name, staged)? || has_some(rt, target, staged, name)?)
}

/// The same of a stripe alone, beside another one.
fn has_some(
    rt: &HostRuntime,
    target: &Target<'_>,
    stripe: &str,
    other: &str,
) -> Result<bool, FileFault> {
    let own = OwnStripe::of(rt, target, stripe)?;
    let files = files_of(rt, target, &own)?;
    Ok(
        has_any(rt, target, files.fragments.as_slice())?
            || has_any(rt, target, files.descriptions.as_slice())?
            || has_own_folders(rt, target, own.folders, stripe, other)?,
    )
}
