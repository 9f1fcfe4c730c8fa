//! What is looked at before what was begun replaces a file: what describes it, whether its files can get the names of the old ones, and
//! what goes with these.
use crate::encoding::begun::{Begun, to_replace};
use crate::encoding::lost_descriptions::mend_descriptions;
use crate::encoding::source::no_name;
use crate::encoding::stripe_files::{StripeFiles, are_apart, refuse_irregular};
use crate::own_code::files_beyond;
use lrc_code::Code;
use store_faults::{FileFault, StoreFault};
use store_files::{Target, own_description, refuse_linked};
use store_folder::{Described, first_description_name};

/// What describes what was begun, if that is to replace the file of a name.
pub(crate) fn read_begun(
    rt: &HostRuntime,
    target: &Target<'_>,
    begun: &Begun<'_, '_>,
    name: &str,
) -> Result<Option<Described>, FileFault> {
    let files = StripeFiles::by(rt.alloc(), target, begun.code, begun.file.name)?;
    refuse_linked(rt, target, files.descriptions.as_slice())?;
    refuse_linked(rt, target, files.fragments.as_slice())?;
    let described = to_replace(rt, begun, name)?;
    if let Some(described) = &described {
        refuse_wider(rt, target, described.code)?;
    }
    Ok(described)
}

/// The names of the old files that none of the new file's replaces, since the code of that has fewer. Somebody else's that have such names
/// aren't among them.
pub(crate) fn beyond_of(
    rt: &HostRuntime,
    target: &Target<'_>,
    name: &str,
    described: Option<&Described>,
) -> Result<StripeFiles, FileFault> {
    match described {
        Some(described) => files_beyond(rt, target, name, described.code),
        None => Ok(StripeFiles::none(rt.alloc())),
    }
}

/// Readies the files of a stripe that has been begun to replace those of another one, if something describes it. Then each has its
/// description beside it, as far as that can be, and the names are added of what goes with the old ones.
pub(crate) fn readied(
    rt: &HostRuntime,
    target: &mut Target<'_>,
    name: &str,
    described: Option<&Described>,
    files: &mut StripeFiles,
    replaced: &mut StripeFiles,
    beyond: &StripeFiles,
) -> Result<(), FileFault> {
    if !are_apart(target.folder, files, replaced) {
        return Err(no_name(rt, name));
    }
    let Some(described) = described else {
        return Ok(());
    };
    // Among those to be replaced may be an old description as a fragment: here each is what its name says.
    let old = StripeFiles::by(rt.alloc(), target, described.code, name)?;
    refuse_irregular(rt, target, &old)?;
    refuse_irregular(rt, target, beyond)?;
    mend_descriptions(rt, target, described, files, replaced)
}

/// Refuses to replace a file by a stripe of a code that has more fragments: those beyond the places of the store's code would get no names.
fn refuse_wider(rt: &HostRuntime, target: &Target<'_>, code: Code) -> Result<(), FileFault> {
    if code.data_count() <= target.code.data_count() {
        return Ok(());
    }
    Err(FileFault::Store {
        fault: StoreFault::OtherCode {
            folder: String::from_str(rt.alloc(), target.folder)?,
            other: code.text(),
        },
    })
}

/// Adds the name of the description of a stripe in the store's own folder, if it has one, and beside it that of the stripe which is to
/// replace it.
pub(crate) fn add_own_description(
    rt: &HostRuntime,
    target: &Target<'_>,
    staged: &str,
    name: &str,
    begun: &mut StripeFiles,
    replaced: &mut StripeFiles,
) -> Result<(), FileFault> {
    if let Some(own) = own_description(rt, target, name)? {
        // Nothing has the other name, so that it goes as an old fragment does whose new one was lost.
        replaced.fragments.push(own)?;
        let other = first_description_name(rt.alloc(), staged)?;
        begun.fragments.push(other)?;
    }
    Ok(())
}
