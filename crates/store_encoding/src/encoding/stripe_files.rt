//! The names of a stripe's files, and whether these can get the names of another stripe's, and what has these can be replaced.
ghost use Rattle.std.specs.Prelude.{◌≡◌, true, not, ◌&&◌, codes, string_bytes};
ghost use Rattle.std.specs.List.{list_all, list_any};
ghost use Rattle.std.specs.Str.{bytes_eq};
ghost use Rattle.store_names.specs.Temporary.{is_free};
ghost use Rattle.store_encoding.specs.Names.{AreApart};
ghost use Rattle.store_encoding.specs.Own.{has, is_own, shares_none};

use crate::refusing::refused;
use lrc_code::Code;
use std::alloc::{AllocError, Global};
use std::fs;
use std::io::ErrorKind;
use store_faults::{FileFault, device, fragment_name};
use store_files::{Target, refuse_linked};
use store_folder::{MOST_BYTES, SUMS_NAME, description_names, is_absent};
use store_names::is_free;

/// The names in the store of a stripe's files.
pub(crate) struct StripeFiles {
    pub(crate) fragments: Vec<String>,
    pub(crate) descriptions: Vec<String>,
}

impl Drop for StripeFiles {
    fn drop(self) {
        let StripeFiles {
            fragments: _,
            descriptions: _,
        } = self;
    }
}

impl StripeFiles {
    /// Those of a stripe in a store.
    pub(crate) fn of(
        alloc: Global,
        target: &Target<'_>,
        stripe: &str,
    ) -> Result<StripeFiles, AllocError> {
        StripeFiles::by(alloc, target, target.code, stripe)
    }

    /// No names.
    pub(crate) fn none(alloc: Global) -> StripeFiles {
        StripeFiles {
            fragments: Vec::new(alloc),
            descriptions: Vec::new(alloc),
        }
    }

    /// Whether there is no name.
    pub(crate) fn is_none(&self) -> bool {
        self.fragments.is_empty() && self.descriptions.is_empty()
    }

    /// Those of a stripe of this code.
    pub(crate) fn by(
        alloc: Global,
        target: &Target<'_>,
        code: Code,
        stripe: &str,
    ) -> Result<StripeFiles, AllocError> {
        let mut fragments = Vec::with_capacity(alloc, code.places().len())?;
        for place in code.places() {
            fragments.push(fragment_name(alloc, &target.pattern, code, stripe, *place)?)?;
        }
        Ok(StripeFiles {
            descriptions: description_names(alloc, &target.pattern, code, stripe)?,
            fragments,
        })
    }
}

/// Refuses a stripe one of whose files would have a longer name than its folder takes, before another has its own.
pub(crate) fn refuse_long(
    rt: &HostRuntime,
    target: &Target<'_>,
    files: &StripeFiles,
) -> Result<(), FileFault> {
    refuse_long_names(rt, target, files.fragments.as_slice())?;
    refuse_long_names(rt, target, files.descriptions.as_slice())
}

/// Refuses names of which one is longer than its folder takes, or can't be looked at.
fn refuse_long_names(
    rt: &HostRuntime,
    target: &Target<'_>,
    names: &[String],
) -> Result<(), FileFault> {
    let alloc = rt.alloc();
    for name in names {
        let path = target.path(alloc, name.as_str())?;
        match fs::symlink_metadata(rt, path.as_str()) {
            Err(error) if !matches!(error.kind(), ErrorKind::NotFound | ErrorKind::NotADirectory) =>
                {
                    return Err(device(alloc, path.as_str(), error));
                }
            _ => {}
        }
    }
    Ok(())
}

/// Refuses to replace a stripe's files if something else has the name of one: what is no file, or what is too long for a description; and
/// if one is in a folder that is a link, unless links are followed.
pub(crate) fn refuse_irregular(
    rt: &HostRuntime,
    target: &Target<'_>,
    files: &StripeFiles,
) -> Result<(), FileFault> {
    refuse_linked(rt, target, files.fragments.as_slice())?;
    refuse_linked(rt, target, files.descriptions.as_slice())?;
    refuse_others_than(rt, target, files.fragments.as_slice(), u64::MAX)?;
    refuse_others_than(rt, target, files.descriptions.as_slice(), MOST_BYTES)
}

/// Refuses to replace what has some names if that is something else than a file of at most so many bytes. A link is refused even where
/// links are followed: what replaces a file gets its name, so that where the link leads the old bytes would stay.
fn refuse_others_than(
    rt: &HostRuntime,
    target: &Target<'_>,
    names: &[String],
    most: u64,
) -> Result<(), FileFault> {
    let alloc = rt.alloc();
    for name in names {
        let path = target.path(alloc, name.as_str())?;
        match fs::symlink_metadata(rt, path.as_str()) {
            Ok(there) if !there.is_file() => {
                return Err(refused(format!(in alloc;
                    "{name}: is no regular file, and isn't replaced"
                )));
            }
            Ok(there) if there.len() > most => {
                return Err(refused(format!(in alloc;
                    "{name}: is longer than a description, and isn't replaced"
                )));
            }
            Err(error) if !is_absent(error.kind()) => {
                return Err(device(alloc, path.as_str(), error));
            }
            _ => {}
        }
    }
    Ok(())
}

/// Whether the files of a stripe in a folder can get the names of another one's: no name is of both, and none is one that files have which
/// aren't whole yet, or that of the digests.
pub(crate) fn are_apart(folder: &str, files: &StripeFiles, others: &StripeFiles) -> bool
    ensures { result ≡ true → AreApart folder.now files.now others.now }
{
    let fragments = others.fragments.as_slice();
    let descriptions = others.descriptions.as_slice();
    if !is_free(folder) {
        return false;
    }
    if !is_free(SUMS_NAME) {
        return false;
    }
    if !are_own(files.fragments.as_slice()) {
        return false;
    }
    if !are_own(files.descriptions.as_slice()) {
        return false;
    }
    if !are_own(fragments) {
        return false;
    }
    if !are_own(descriptions) {
        return false;
    }
    if !share_none(files.fragments.as_slice(), fragments, descriptions) {
        return false;
    }
    share_none(files.descriptions.as_slice(), fragments, descriptions)
}

/// Whether no name is one that files have which aren't whole yet, or that of the digests.
fn are_own(names: &[String]) -> bool
    ensures { result ≡ list_all is_own names.now }
{
    names.iter().all(|name| is_own(name.as_str()))
}

/// Whether a name is one that a stripe's file can have: none that an unfinished file has, and not that of the digests.
fn is_own(name: &str) -> bool
    ensures { result ≡ (is_free name.now && not (bytes_eq name.now (codes "SHA256SUMS"))) }
{
    is_free(name) && name != SUMS_NAME
}

/// Whether none of the names is one of some others.
fn share_none(names: &[String], fragments: &[String], descriptions: &[String]) -> bool
    ensures { result ≡ list_all (shares_none fragments.now descriptions.now) names.now }
{
    names
        .iter()
        .all(|name| is_none_of(name.as_str(), fragments, descriptions))
}

/// Whether a name is none of these.
fn is_none_of(name: &str, fragments: &[String], descriptions: &[String]) -> bool
    ensures { result ≡ (not (has fragments.now name.now) && not (has descriptions.now name.now)) }
{
    !has(fragments, name) && !has(descriptions, name)
}

/// Whether a name is among some.
fn has(names: &[String], name: &str) -> bool
    ensures { result ≡ list_any (λ other. bytes_eq (string_bytes other) name.now) names.now }
{
    names.iter().any(|other| other.as_str() == name)
}
