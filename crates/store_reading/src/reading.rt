//! Reading a file from a store. Nothing of it is to be seen before the fragments that are read are known to give the described file.
pub(crate) mod destination;
pub(crate) mod output;
mod refusing;

ghost use Rattle.std.specs.Prelude.{◌≡◌, vec_len};

use destination::write_at;
use lrc_code::{Code, PlaceSet};
use output::write_out;
use std::alloc::{AllocError, Global};
use store_faults::FileFault;
use store_files::{
    Cause, Copies, Fragments, Missing, Refusal, Sought, StoredFile, Tries, copies_of,
    descriptions_of, first_described, has_enough, open_fragments, set_that_fits, shares_fragment,
    staged_name, unread_of,
};
use store_folder::{Described, SystemFolder};
use store_repair::{fragment_length, lost_places};

/// How often a file is read at most that other runs replace meanwhile.
const MOST_TIMES: usize = 8;

/// What is done with a file that is read.
#[derive(Clone, Copy)]
enum ReadTo<'a> {
    Nothing,
    StandardOutput,
    Path(&'a str),
}

/// Writes a file of a store to a file, or to standard output if none is named, and says what was left out. If a run that was to replace the
/// file was killed, what replaces it is written as soon as all of that is there. A file that is replaced meanwhile is read again.
pub fn read_file(
    rt: &HostRuntime,
    file: &StoredFile<'_, '_>,
    output: Option<&str>,
) -> Result<(), FileFault> {
    read_to(
        rt,
        file,
        match output {
            Some(path) => ReadTo::Path(path),
            None => ReadTo::StandardOutput,
        },
    )
}

/// Holds a file of a store to its digest, as `read` would give it, and says what was left out.
pub fn verify_file(rt: &HostRuntime, file: &StoredFile<'_, '_>) -> Result<(), FileFault> {
    read_to(rt, file, ReadTo::Nothing)
}

/// Reads a file of a store to an output, if there is to be one.
fn read_to(
    rt: &HostRuntime,
    file: &StoredFile<'_, '_>,
    output: ReadTo<'_>,
) -> Result<(), FileFault> {
    let staged = staged_name(rt.alloc(), file.name)?;
    let staged = StoredFile {
        name: staged.as_str(),
        ..*file
    };
    for _time in 1..MOST_TIMES {
        let seen = Seen::now(rt, &staged, file)?;
        let Some(fault) = read_newest(rt, &staged, file, seen, output)? else {
            return Ok(());
        };
        if Seen::now(rt, &staged, file)? == seen {
            return Err(fault);
        }
        let name = file.name;
        file.say(
            rt,
            format!(in rt.alloc();
                "rebuild-store: {name}: was replaced meanwhile, and is read again"
            ),
        );
    }
    let seen = Seen::now(rt, &staged, file)?;
    read_newest(rt, &staged, file, seen, output)?.map_or(Ok(()), Err)
}

/// What is seen of a file before it is read. If that is other after a read that failed, the file was replaced meanwhile, and fragments of
/// both may have been read.
#[derive(Clone, Copy, PartialEq, Eq)]
struct Seen {
    described: Option<Described>,
    /// Whether all of the stripe is there that is to replace the file.
    is_newer: bool,
}

impl Seen {
    /// What is seen now.
    fn now(
        rt: &HostRuntime,
        staged: &StoredFile<'_, '_>,
        file: &StoredFile<'_, '_>,
    ) -> Result<Seen, FileFault> {
        Ok(Seen {
            described: first_described(rt, file)?,
            is_newer: is_newer(rt, staged, file)?,
        })
    }
}

/// Reads a file, or what replaces it where all of that was seen. Gives why the fragments don't give it, if they don't: then nothing is
/// written.
fn read_newest(
    rt: &HostRuntime,
    staged: &StoredFile<'_, '_>,
    file: &StoredFile<'_, '_>,
    seen: Seen,
    output: ReadTo<'_>,
) -> Result<Option<FileFault>, FileFault> {
    if seen.is_newer {
        return read_fitting(rt, staged, output);
    }
    read_fitting(rt, file, output)
}

/// Whether a stripe is there that is to replace a file: it is described, and so many of its fragments are there that they give what is
/// described. If its description is of another form, it counts as not described, unless fragments of it have names of the file already. If
/// the system refuses to read it, nothing is known, unless too few fragments are there in any case, or the copy that is made first isn't.
fn is_newer(
    rt: &HostRuntime,
    staged: &StoredFile<'_, '_>,
    file: &StoredFile<'_, '_>,
) -> Result<bool, FileFault> {
    let Copies {
        said,
        refused,
        is_first_absent,
    } = copies_of(rt, staged)?;
    if !said.is_empty() {
        return is_there(rt, staged, said.as_slice());
    }
    let Some(Refusal { fault, cause }) = refused else {
        return Ok(false);
    };
    let may_be = match cause {
        Cause::Odd | Cause::NoFile => false,
        Cause::Unread => !is_first_absent && may_be_there(rt, staged)?,
    };
    if may_be || shares_fragment(rt, staged, file)? {
        return Err(fault);
    }
    Ok(false)
}

/// Whether fragments enough of a stripe are there by one of its descriptions.
fn is_there(
    rt: &HostRuntime,
    file: &StoredFile<'_, '_>,
    said: &[Described],
) -> Result<bool, FileFault> {
    let mut unknown = None;
    for described in said {
        let length = fragment_length(described.code, described.length as usize);
        match has_enough(rt, file, described.code, Some(length as u64)) {
            Ok(true) => return Ok(true),
            Ok(false) => {}
            Err(fault) if matches!(&fault, FileFault::OutOfMemory) => return Err(fault),
            Err(fault) => unknown = Some(fault),
        }
    }
    unknown.map_or(Ok(false), Err)
}

/// Whether fragments enough of a stripe may be there that nothing describes.
fn may_be_there(rt: &HostRuntime, file: &StoredFile<'_, '_>) -> Result<bool, FileFault> {
    for code in [Code::Narrow, Code::Wide] {
        match has_enough(rt, file, code, None) {
            Ok(false) => {}
            Err(fault) if matches!(&fault, FileFault::OutOfMemory) => return Err(fault),
            _ => return Ok(true),
        }
    }
    Ok(false)
}

/// Finds fragments that give a file, and writes it to an output, if there is to be one. Gives why none do, before anything is written.
fn read_fitting(
    rt: &HostRuntime,
    file: &StoredFile<'_, '_>,
    output: ReadTo<'_>,
) -> Result<Option<FileFault>, FileFault> {
    let said = match descriptions_of(rt, file) {
        Ok(said) => said,
        Err(fault) if matches!(&fault, FileFault::OutOfMemory) => return Err(fault),
        Err(fault) => return Ok(Some(fault)),
    };
    let mut unread = None;
    let are_several = said.len() > 1;
    for described in said {
        let sought = Sought::new(file, described);
        let fragments = open_fragments(rt, &sought, Missing::Said)?;
        // Any fragments, and none, would give a file without bytes.
        let may_be_read = !are_several
            || described.length > 0
            || are_of_stripe(rt.alloc(), described.code, fragments.set)?;
        let mut tries = Tries::new(rt.alloc());
        if is_given(rt, &sought, &fragments, may_be_read, output, &mut tries)? {
            return Ok(None);
        }
        if unread.is_none() {
            unread = unread_of(rt, &sought, fragments, tries)?;
        } else {
            drop(fragments);
            drop(tries);
        }
    }
    if unread.is_some() {
        return Ok(unread);
    }
    let name = file.name;
    let what = format!(in rt.alloc();
        "{name}: the fragments that are there don't give the file that {name}.file describes"
    )?;
    Ok(Some(FileFault::Refused { what }))
}

/// Whether some fragments give a file that may be read, which is then written to an output, if there is to be one.
fn is_given(
    rt: &HostRuntime,
    sought: &Sought<'_, '_>,
    fragments: &Fragments,
    may_be_read: bool,
    output: ReadTo<'_>,
    tries: &mut Tries,
) -> Result<bool, FileFault>
    requires { vec_len fragments.now.opened ≡ 16 }
{
    if !may_be_read {
        return Ok(false);
    }
    match output {
        ReadTo::Nothing => Ok(set_that_fits(rt, sought, fragments, tries)?.is_some()),
        ReadTo::StandardOutput => print_fitting(rt, sought, fragments, tries),
        ReadTo::Path(path) => {
            write_at(
                rt,
                &mut SystemFolder::new(rt),
                sought,
                fragments,
                path,
                tries,
            )
        }
    }
}

/// Whether the fragments at some places determine all of a stripe.
fn are_of_stripe(alloc: Global, code: Code, there: PlaceSet) -> Result<bool, AllocError> {
    let lost = lost_places(alloc, code, there, code.others(there))?;
    Ok(lost.several.is_empty())
}

/// Writes the file to standard output if the fragments give it, which is known before its first byte is written. Says whether they do.
fn print_fitting(
    rt: &HostRuntime,
    sought: &Sought<'_, '_>,
    fragments: &Fragments,
    tries: &mut Tries,
) -> Result<bool, FileFault>
    requires { vec_len fragments.now.opened ≡ 16 }
{
    match set_that_fits(rt, sought, fragments, tries)? {
        Some(set) => {
            write_out(rt, sought, fragments, set)?;
            Ok(true)
        }
        None => Ok(false),
    }
}
