//! What a run has left that was to replace a file: whether it is to replace it now, or to go.
use crate::encoding::lone::is_nothing;
use crate::refusing::refused;
use lrc_code::Code;
use store_faults::FileFault;
use store_files::{
    StoredFile, descriptions_for_sure, fitting_description, has_fragments_of, is_whole,
    shares_fragment_for_sure,
};
use store_folder::Described;

/// What was begun that is to replace a file.
#[derive(Clone, Copy)]
pub(crate) struct Begun<'a, 'p> {
    pub(crate) file: StoredFile<'a, 'p>,
    /// Its own code, as far as that is known before its fragments are read.
    pub(crate) code: Code,
    /// Whether this run has made it, and so knows what its fragments have.
    pub(crate) is_new: bool,
}

/// What describes what was begun, if that is to replace the file of a name: it is whole, and its fragments give what is said of it, as
/// `read` finds that: first what most copies say, also without fragments that are damaged or can't be read. Else it is to go, if nothing
/// describes it, or if descriptions are all that there is of it. But if it was given names already, or if more of it may be on a disk that
/// is away, it may be all that there is of the file, and is refused. So is what was damaged since another run made it.
pub(crate) fn to_replace(
    rt: &HostRuntime,
    begun: &Begun<'_, '_>,
    name: &str,
) -> Result<Option<Described>, FileFault> {
    let file = &begun.file;
    let said = descriptions_for_sure(rt, file)?;
    let whole = whole_of(rt, file, said.as_slice())?;
    let Some(first) = whole.first().copied() else {
        return if is_to_go(rt, file, name, said.as_slice())? {
            Ok(None)
        } else {
            Err(too_little(rt, file.name))
        };
    };
    if begun.is_new {
        return Ok(Some(first));
    }
    match fitting_description(rt, file, whole.as_slice())? {
        Some(described) => Ok(Some(described)),
        None => Err(damaged(rt, file.name)),
    }
}

/// Those of some descriptions of a stripe by whose code all of it is there. A disk that was away when all of this was done elsewhere has
/// its share of it alone.
fn whole_of(
    rt: &HostRuntime,
    file: &StoredFile<'_, '_>,
    said: &[Described],
) -> Result<Vec<Described>, FileFault> {
    let mut whole = Vec::new(rt.alloc());
    for described in said {
        if is_whole(rt, file, described.code)? {
            whole.push(*described)?;
        }
    }
    Ok(whole)
}

/// Whether what was begun, of which this is said and not all is there, is to go.
fn is_to_go(
    rt: &HostRuntime,
    file: &StoredFile<'_, '_>,
    name: &str,
    said: &[Described],
) -> Result<bool, FileFault> {
    if said.is_empty() {
        return Ok(!is_half_given(rt, file, name)?);
    }
    is_nothing(rt, file, name, said)
}

/// That the fragments of a stripe which is to replace another one don't give its file.
fn damaged(rt: &HostRuntime, name: &str) -> FileFault {
    refused(format!(in rt.alloc();
        "{name}: the fragments that are there don't give the file that {name}.file describes"
    ))
}

/// That too little is there of a stripe which is to replace another one.
fn too_little(rt: &HostRuntime, name: &str) -> FileFault {
    refused(format!(in rt.alloc();
        "{name}: too little of it is there to replace a file: bring its disks back, or remove it"
    ))
}

/// Whether fragments of a stripe have names of a file already that it was to replace, and that was never ended. Once it is, each has its
/// name, or the bytes of what a repair has made under that, and the file's own fragments give what its own description says.
fn is_half_given(
    rt: &HostRuntime,
    staged: &StoredFile<'_, '_>,
    name: &str,
) -> Result<bool, FileFault> {
    let file = StoredFile { name, ..*staged };
    if !shares_fragment_for_sure(rt, staged, &file)? {
        return Ok(false);
    }
    if !has_fragments_of(rt, staged, &file)? {
        return Ok(true);
    }
    let said = descriptions_for_sure(rt, &file)?;
    Ok(fitting_description(rt, &file, said.as_slice())?.is_none())
}
