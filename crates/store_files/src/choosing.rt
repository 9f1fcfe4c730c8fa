//! Which fragments a file is read from, where some are damaged.
ghost use Rattle.std.specs.Prelude.{◌≡◌, vec_len};

use crate::fragments::{Fragments, Given, given_by};
use crate::own_sums::own_sums;
use crate::stored_file::{Sought, StoredFile};
use crate::tries::Tries;
use lrc_code::{Place, PlaceSet};
use std::io::ErrorKind;
use store_faults::FileFault;
use store_folder::{
    Described, SUMS_NAME, description_names, digests_of, path_in, read_description,
};
use store_names::folder_in;
use store_repair::without;

/// A set of fragments that gives the file: all, or some of them. What the system refuses to read is left out, and said.
pub fn set_that_fits(
    rt: &HostRuntime,
    sought: &Sought<'_, '_>,
    fragments: &Fragments,
    tries: &mut Tries,
) -> Result<Option<PlaceSet>, FileFault>
    requires { vec_len fragments.now.opened ≡ 16 }
{
    let all = fragments.set;
    match given_anew(rt, sought, fragments, all, tries)? {
        Some(set) => Ok(Some(set)),
        None => some_that_fit(rt, sought, fragments, tries),
    }
}

/// A set of fragments that gives the file where all don't: those that have the digests of the store's sums, those beside which the file's
/// description is, or no other one, or all but one or two.
fn some_that_fit(
    rt: &HostRuntime,
    sought: &Sought<'_, '_>,
    fragments: &Fragments,
    tries: &mut Tries,
) -> Result<Option<PlaceSet>, FileFault>
    requires { vec_len fragments.now.opened ≡ 16 }
{
    let all = fragments.set;
    let name = sought.file.name;
    let listed = with_digests(rt, sought, fragments, tries)?;
    if let Some(set) = given_anew(rt, sought, fragments, listed, tries)? {
        sought.file.say(
            rt,
            format!(in rt.alloc();
                "rebuild-store: {name}: read without the fragments that differ from {SUMS_NAME}"
            ),
        );
        return Ok(Some(set));
    }
    match with_description(rt, sought, fragments, tries)? {
        Some(set) => Ok(Some(set)),
        None => without_some(rt, sought, fragments, all, tries),
    }
}

/// Those of some fragments that can be read, if they give the file. Such as are read as others were that don't give it aren't read again.
fn given_anew(
    rt: &HostRuntime,
    sought: &Sought<'_, '_>,
    fragments: &Fragments,
    some: PlaceSet,
    tries: &mut Tries,
) -> Result<Option<PlaceSet>, FileFault>
    requires { vec_len fragments.now.opened ≡ 16 }
{
    // In each turn but the last a fragment more is left out.
    for _turn in 0..=Place::ALL.len() {
        let set = tries.readable(sought, some);
        if tries.note(sought, set)? {
            return Ok(None);
        }
        match given_by(rt, sought, fragments, set)? {
            Given::File => return Ok(Some(set)),
            Given::Other => return Ok(None),
            Given::Unread { index, error } => tries.leave_out(rt, sought, index, error)?,
        }
    }
    Ok(None)
}

/// The fragments beside which the file's description is, or no other one, if they give the file, also without one or two. A disk that was
/// away while the file was replaced brings back an old fragment beside the old description.
fn with_description(
    rt: &HostRuntime,
    sought: &Sought<'_, '_>,
    fragments: &Fragments,
    tries: &mut Tries,
) -> Result<Option<PlaceSet>, FileFault>
    requires { vec_len fragments.now.opened ≡ 16 }
{
    let (described, unopposed) = by_descriptions(rt, sought, fragments)?;
    // If no disk has another description, none has an old fragment for that.
    if unopposed.len() == fragments.set.len() {
        return Ok(None);
    }
    for some in [described, unopposed] {
        if let Some(set) = given_anew(rt, sought, fragments, some, tries)? {
            say_described(rt, sought);
            return Ok(Some(set));
        }
    }
    let set = without_some(rt, sought, fragments, unopposed, tries)?;
    if set.is_some() {
        say_described(rt, sought);
    }
    Ok(set)
}

/// Says that fragments were left out for the descriptions beside them.
fn say_described(rt: &HostRuntime, sought: &Sought<'_, '_>) {
    let name = sought.file.name;
    sought.file.say(
        rt,
        format!(in rt.alloc();
            "rebuild-store: {name}: read without the fragments beside which another file is described"
        ),
    );
}

/// The fragments in whose folders the file's description is, and these with those in whose folders none can be read.
fn by_descriptions(
    rt: &HostRuntime,
    sought: &Sought<'_, '_>,
    fragments: &Fragments,
) -> Result<(PlaceSet, PlaceSet), FileFault> {
    let alloc = rt.alloc();
    let StoredFile { pattern, name, .. } = sought.file;
    let copies = description_names(alloc, &pattern, sought.described.code, name)?;
    let mut described = PlaceSet::empty();
    let mut unopposed = PlaceSet::empty();
    for place in &Place::ALL {
        if !fragments.set.has(*place) {
            continue;
        }
        let fragment = sought.name_of(alloc, *place)?;
        match said_in(rt, sought, copies.as_slice(), folder_in(fragment.as_str()))? {
            Some(said) if said == sought.described => {
                described = described.with(*place);
                unopposed = unopposed.with(*place);
            }
            Some(_) => {}
            None => unopposed = unopposed.with(*place),
        }
    }
    Ok((described, unopposed))
}

/// What the first of some copies of the description says that is in a folder of the store; none where it can't be read.
fn said_in(
    rt: &HostRuntime,
    sought: &Sought<'_, '_>,
    copies: &[String],
    folder: &str,
) -> Result<Option<Described>, FileFault> {
    for copy in copies {
        if folder_in(copy.as_str()) != folder {
            continue;
        }
        let path = path_in(rt.alloc(), sought.file.folder, copy.as_str())?;
        return match read_description(rt, path.as_str(), sought.file.links) {
            Ok(said) => Ok(said),
            Err(error) if error.kind() == ErrorKind::OutOfMemory => Err(FileFault::OutOfMemory),
            Err(_) => Ok(None),
        };
    }
    Ok(None)
}

/// Some fragments but one or two, if they give the file.
fn without_some(
    rt: &HostRuntime,
    sought: &Sought<'_, '_>,
    fragments: &Fragments,
    some: PlaceSet,
    tries: &mut Tries,
) -> Result<Option<PlaceSet>, FileFault>
    requires { vec_len fragments.now.opened ≡ 16 }
{
    match without_one(rt, sought, fragments, some, tries)? {
        Some(set) => Ok(Some(set)),
        None => without_two(rt, sought, fragments, some, tries),
    }
}

/// Some fragments but one, if they give the file.
fn without_one(
    rt: &HostRuntime,
    sought: &Sought<'_, '_>,
    fragments: &Fragments,
    some: PlaceSet,
    tries: &mut Tries,
) -> Result<Option<PlaceSet>, FileFault>
    requires { vec_len fragments.now.opened ≡ 16 }
{
    let name = sought.file.name;
    for first in &Place::ALL {
        if !some.has(*first) {
            continue;
        }
        let rest = without(sought.described.code, some, *first);
        if let Some(set) = given_anew(rt, sought, fragments, rest, tries)? {
            let first = first.name();
            sought.file.say(
                rt,
                format!(in rt.alloc();
                    "rebuild-store: {name}: a fragment is damaged: read without {first}"
                ),
            );
            return Ok(Some(set));
        }
    }
    Ok(None)
}

/// Some fragments but two, if they give the file.
fn without_two(
    rt: &HostRuntime,
    sought: &Sought<'_, '_>,
    fragments: &Fragments,
    some: PlaceSet,
    tries: &mut Tries,
) -> Result<Option<PlaceSet>, FileFault>
    requires { vec_len fragments.now.opened ≡ 16 }
{
    let code = sought.described.code;
    let name = sought.file.name;
    for first in &Place::ALL {
        for second in &Place::ALL {
            if !some.has(*first) || !some.has(*second) || first.index() >= second.index() {
                continue;
            }
            let rest = without(code, without(code, some, *first), *second);
            if let Some(set) = given_anew(rt, sought, fragments, rest, tries)? {
                let first = first.name();
                let second = second.name();
                sought.file.say(
                    rt,
                    format!(in rt.alloc();
                        "rebuild-store: {name}: fragments are damaged: read without {first} and {second}"
                    ),
                );
                return Ok(Some(set));
            }
        }
    }
    Ok(None)
}

/// The fragments that have the digests of the store's sums, or that they don't name; all, where there are no sums.
fn with_digests(
    rt: &HostRuntime,
    sought: &Sought<'_, '_>,
    fragments: &Fragments,
    tries: &mut Tries,
) -> Result<PlaceSet, FileFault> {
    let alloc = rt.alloc();
    let Some(sums) = own_sums(rt, &sought.file)? else {
        return Ok(fragments.set);
    };
    let mut opened = Vec::with_capacity(alloc, fragments.opened.len())?;
    for fragment in &fragments.opened {
        opened.push(fragment.as_ref())?;
    }
    let mut set = PlaceSet::empty();
    let mut index = 0usize;
    for digest in digests_of(alloc, opened.as_slice(), sought.length)? {
        match digest {
            Some(Ok(digest)) => {
                if let Some(place) = Place::from_index(index) {
                    let name = sought.name_of(alloc, place)?;
                    let listed = sums.digest_of(name.as_str());
                    if listed.is_none() || listed == Some(&digest) {
                        set = set.with(place);
                    }
                }
            }
            Some(Err(error)) => tries.leave_out(rt, sought, index, error)?,
            None => {}
        }
        index = index.saturating_add(1);
    }
    Ok(set)
}
