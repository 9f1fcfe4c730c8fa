//! The code of a file of a store, which may be another than the one that most files there have, and the names that its files have by that.
//! A name that the (12,2,2) code alone gives a file isn't that of a (6,2,2) one, but somebody else's.
use crate::encoding::descriptions::digest_of_text;
use crate::encoding::stripe_files::StripeFiles;
use lrc_code::Code;
use store_faults::{FileFault, device, fragment_name};
use store_files::{StoredFile, Target, descriptions_for_sure, is_lost, is_there, own_description};
use store_folder::{Described, description_names, read_description};

/// So many names that the (12,2,2) code alone gives a stripe show that it is of that code. Fewer files may be somebody else's.
const MANY_NAMES: usize = 3;

/// A stripe of a store, and its own code.
#[derive(Clone, Copy)]
pub(crate) struct OwnStripe<'n> {
    pub(crate) name: &'n str,
    /// What is believed of its description. If it has none, (12,2,2) if the digests have a name that the (6,2,2) code doesn't give it, or
    /// files have three, and else the store's.
    pub(crate) code: Code,
    /// By which it has folders: without a description it may have been of the code that has more of them.
    pub(crate) folders: Code,
}

impl<'n> OwnStripe<'n> {
    /// The stripe of a name.
    pub(crate) fn of(
        rt: &HostRuntime,
        target: &Target<'_>,
        name: &'n str,
    ) -> Result<OwnStripe<'n>, FileFault> {
        if let Some(described) = believed(rt, target, name)? {
            let code = described.code;
            return Ok(OwnStripe {
                name,
                code,
                folders: code,
            });
        }
        let mut code = target.code;
        if WideNames::of(rt, target, name)?.show_code() {
            refuse_unread(rt, target, name)?;
            code = Code::Wide;
        }
        Ok(OwnStripe {
            name,
            code,
            folders: Code::Wide,
        })
    }
}

/// The names of a stripe's files by its own code, also of its description in the store's own folder, if it has one.
pub(crate) fn files_of(
    rt: &HostRuntime,
    target: &Target<'_>,
    stripe: &OwnStripe<'_>,
) -> Result<StripeFiles, FileFault> {
    let mut files = StripeFiles::by(rt.alloc(), target, stripe.code, stripe.name)?;
    match own_description(rt, target, stripe.name) {
        Ok(Some(own)) => {
            files.descriptions.push(own)?;
            Ok(files)
        }
        Ok(None) => Ok(files),
        Err(fault) => Err(fault),
    }
}

/// The names of a stripe's files by its own code that it hasn't by another one.
pub(crate) fn files_beyond(
    rt: &HostRuntime,
    target: &Target<'_>,
    stripe: &str,
    code: Code,
) -> Result<StripeFiles, FileFault> {
    let alloc = rt.alloc();
    if WideNames::of(rt, target, stripe)?.is_none() {
        return Ok(StripeFiles::none(alloc));
    }
    let own = OwnStripe::of(rt, target, stripe)?;
    let own = StripeFiles::by(alloc, target, own.code, stripe)?;
    let files = StripeFiles::by(alloc, target, code, stripe)?;
    let mut beyond = StripeFiles::none(alloc);
    for name in &own.fragments {
        if !files
            .fragments
            .iter()
            .any(|other| other.as_str() == name.as_str())
        {
            beyond
                .fragments
                .push(String::from_str(alloc, name.as_str())?)?;
        }
    }
    for name in &own.descriptions {
        if !files
            .descriptions
            .iter()
            .any(|other| other.as_str() == name.as_str())
        {
            beyond
                .descriptions
                .push(String::from_str(alloc, name.as_str())?)?;
        }
    }
    Ok(beyond)
}

/// What is believed of a stripe's description: what the copies say that have a digest which the store's sums name for one of them, and else
/// what most say. Copies that can't be read say nothing.
fn believed(
    rt: &HostRuntime,
    target: &Target<'_>,
    stripe: &str,
) -> Result<Option<Described>, FileFault> {
    let alloc = rt.alloc();
    let file = StoredFile {
        folder: target.folder,
        pattern: target.pattern,
        name: stripe,
        links: target.links,
        progress: None,
    };
    let said = match descriptions_for_sure(rt, &file) {
        Ok(said) => said,
        Err(fault) if matches!(&fault, FileFault::OutOfMemory) => return Err(fault),
        Err(fault) => {
            drop(fault);
            return Ok(None);
        }
    };
    let copies = description_names(alloc, &target.pattern, Code::Wide, stripe)?;
    for described in &said {
        let text = described.text(alloc)?;
        let digest = digest_of_text(text.as_str());
        let is_listed = copies.iter().any(|copy| target.sums.digest_of(copy.as_str())
            == Some(&digest));
        if is_listed {
            return Ok(Some(*described));
        }
    }
    Ok(said.first().copied())
}

/// What there is under names of a stripe's files that the (6,2,2) code doesn't give it.
#[derive(Clone, Copy)]
struct WideNames {
    /// How many of them something has.
    there: usize,
    /// Whether the digests have one.
    are_listed: bool,
}

impl WideNames {
    /// Those of a stripe.
    fn of(rt: &HostRuntime, target: &Target<'_>, stripe: &str) -> Result<WideNames, FileFault> {
        let alloc = rt.alloc();
        let has_shards = target.pattern.has_shards();
        let mut found = WideNames {
            there: 0,
            are_listed: false,
        };
        for place in Code::Wide.places() {
            if !has_shards && Code::Narrow.has(*place) {
                continue;
            }
            let name = fragment_name(alloc, &target.pattern, Code::Wide, stripe, *place)?;
            if !is_narrow_name(target, stripe, name.as_str()) {
                found.note(rt, target, name.as_str())?;
            }
        }
        let narrow = description_names(alloc, &target.pattern, Code::Narrow, stripe)?;
        for name in description_names(alloc, &target.pattern, Code::Wide, stripe)? {
            if !narrow.iter().any(|other| other.as_str() == name.as_str()) {
                found.note(rt, target, name.as_str())?;
            }
        }
        Ok(found)
    }

    /// Notes one of the names.
    fn note(&mut self, rt: &HostRuntime, target: &Target<'_>, name: &str) -> Result<(), FileFault> {
        if target.sums.digest_of(name).is_some() {
            self.are_listed = true;
            return Ok(());
        }
        let path = target.path(rt.alloc(), name)?;
        if is_there(rt, path.as_str())? {
            self.there = self.there.saturating_add(1);
        }
        Ok(())
    }

    /// Whether none is used.
    fn is_none(&self) -> bool {
        self.there == 0 && !self.are_listed
    }

    /// Whether they show that the stripe is of the (12,2,2) code.
    fn show_code(&self) -> bool {
        self.are_listed || MANY_NAMES <= self.there
    }
}

/// Whether the (6,2,2) code gives a fragment of a stripe a name.
fn is_narrow_name(target: &Target<'_>, stripe: &str, name: &str) -> bool {
    match target.pattern.read(Code::Narrow, name) {
        Some((found, place)) => found == stripe && Code::Narrow.has(place),
        None => false,
    }
}

/// Refuses a stripe one of whose descriptions can't be read: it may say the code.
fn refuse_unread(rt: &HostRuntime, target: &Target<'_>, stripe: &str) -> Result<(), FileFault> {
    let alloc = rt.alloc();
    for copy in description_names(alloc, &target.pattern, Code::Wide, stripe)? {
        let path = target.path(alloc, copy.as_str())?;
        match read_description(rt, path.as_str(), target.links) {
            Err(error) if !is_lost(error.kind()) => {
                return Err(device(alloc, path.as_str(), error));
            }
            _ => {}
        }
    }
    Ok(())
}
