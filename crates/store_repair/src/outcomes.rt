//! What becomes of a stripe.
ghost use Rattle.std.specs.Prelude.{◌≡◌, ◌≢◌, ◌++◌, ◌||◌, ◌↔◌, [], true, false, Contains, IsTrue, Option, IfOk, OnOk};
ghost use Rattle.lrc_code.specs.declared.places.Place.{Place};
ghost use Rattle.lrc_code.specs.Sets.{is_in};
ghost use Rattle.store_repair.specs.Findings.{IsMendedBy, differing_by, is_unsettled, is_without_length, named, named_by};
ghost use Rattle.store_repair.specs.Findings.{said_differing, says_no_length, says_unsettled};
ghost use Rattle.store_repair.specs.Losses.{IsCovered};
ghost use Rattle.store_repair.specs.Reasons.{IsReasonOf, is_damage, is_of_device};
ghost use Rattle.store_repair.specs.Scrubbed.{damaged_by, said_damaged};

use crate::coverage::is_covered;
use crate::damage::Suspects;
use crate::length_groups::Lengths;
use lrc_code::{Code, Place, PlaceSet};
use std::alloc::{AllocError, Global};
use std::fmt::{self, Display, Formatter, Write};
use std::io;
use stores::{Found, NameFault, Stripe};

/// Why a fragment, or a stripe, isn't as it should be.
pub enum Reason {
    Absent,
    OtherLength,
    Dangling,
    NoFile,
    Unknown(io::Error),
    /// Of a stripe: none of its fragments can be read.
    NoSurvivor,
    /// Of a stripe: its files have several lengths, and checks confirm none of these, or more than one, or one that isn't the greatest.
    LengthsDiffer(Lengths),
    /// The survivors don't determine the fragment.
    Several,
    /// Without the fragment the others belong together, and each stripe of the code that differs from the survivors in at most two places
    /// differs at it.
    Damaged,
    /// Without the fragment the others belong together, and without no other; two others that are damaged may make it look so. It was taken
    /// for the damaged one since the repair was to assume that only one is.
    TakenForDamaged,
    /// Of a stripe: its survivors don't belong together, and at least one of the suspects is damaged.
    Suspected(Suspects),
    /// Of a stripe: its survivors don't belong together, and no single one of them explains it.
    Contradiction,
    /// The fragment doesn't have the bytes that the store's checksums say.
    Differs,
    /// The rebuilt fragment doesn't have the bytes that the store's checksums say, so it isn't put in its place.
    RebuiltDiffers,
    /// The fragment was written to since it was opened, so what was read of it may be of two states.
    Changed,
    Unread(io::Error),
    Unwritten(io::Error),
    NoCheck,
    /// Of a stripe: a file was left over, or names are not known to be on the disk.
    Unsettled(NameFault),
    CameMeanwhile,
    KeptThere,
}

impl Drop for Reason {
    fn drop(self) {
        match self {
            Reason::Absent => {}
            Reason::OtherLength => {}
            Reason::Dangling => {}
            Reason::NoFile => {}
            Reason::Unknown(_) => {}
            Reason::NoSurvivor => {}
            Reason::LengthsDiffer(_) => {}
            Reason::Several => {}
            Reason::Damaged => {}
            Reason::TakenForDamaged => {}
            Reason::Suspected(_) => {}
            Reason::Contradiction => {}
            Reason::Differs => {}
            Reason::RebuiltDiffers => {}
            Reason::Changed => {}
            Reason::Unread(_) => {}
            Reason::Unwritten(_) => {}
            Reason::NoCheck => {}
            Reason::Unsettled(_) => {}
            Reason::CameMeanwhile => {}
            Reason::KeptThere => {}
        }
    }
}

impl Display for Reason {
    fn fmt<W: Write>(&self, f: &mut Formatter<W>) -> fmt::Result {
        f.write_str(self.text())?;
        match self {
            Reason::Unknown(error) | Reason::Unread(error) | Reason::Unwritten(error) => write!(
                f,
                "{error}"
            ),
            Reason::LengthsDiffer(lengths) => write!(f, "{lengths}"),
            Reason::Suspected(suspects) => write!(f, "{suspects}"),
            Reason::Unsettled(fault) => write!(f, "{fault}"),
            _ => Ok(()),
        }
    }
}

impl Reason {
    /// Why a fragment isn't among the survivors of a stripe, by what is under its name; a file has another length.
    pub fn of(found: Found) -> Reason
        ensures none { (place : Option Place) → damaged_by result place ≡ [] }
        ensures is { IsReasonOf found result }
    {
        match found {
            Found::Absent => Reason::Absent,
            Found::File { .. } => Reason::OtherLength,
            Found::Dangling => Reason::Dangling,
            Found::Other => Reason::NoFile,
            Found::Unknown { code } => Reason::Unknown(io::Error::from_raw_os_error(code)),
        }
    }

    /// What is said of it; what it has more to tell follows a colon.
    fn text(&self) -> &'static str {
        match self {
            Reason::Absent => "is lost",
            Reason::OtherLength => "has another length than the other fragments of the stripe",
            Reason::Dangling => "is a link to nothing",
            Reason::NoFile => "is no regular file",
            Reason::Unknown(_) => "can't be looked at: ",
            Reason::NoSurvivor => "no fragment can be read",
            Reason::LengthsDiffer(_) =>
                "its fragments have different lengths, and no check says which is right: ",
            Reason::Several => "can't be rebuilt: the fragments that survive don't determine it",
            Reason::Damaged => "is damaged: only without it the others belong together",
            Reason::TakenForDamaged =>
                "is taken for the damaged one, which is a guess: only without it the others belong together",
            Reason::Suspected(_) => "contradiction: one of these is damaged: ",
            Reason::Contradiction => "contradiction, and which fragment is damaged can't be told",
            Reason::Differs => "differs from the checksums",
            Reason::RebuiltDiffers =>
                "was rebuilt, and what was rebuilt differs from the checksums",
            Reason::Changed => "changed meanwhile: nothing of its stripe is put in its place",
            Reason::Unread(_) => "can't be read: ",
            Reason::Unwritten(_) => "can't be put in its place: ",
            Reason::NoCheck => "isn't replaced: no check covers what would be put in its place",
            Reason::Unsettled(_) => "was left over, or isn't known to be on the disk: ",
            Reason::CameMeanwhile => "has come meanwhile, and stays as it is",
            Reason::KeptThere =>
                "isn't replaced: a fragment that was replaced before is kept beside it",
        }
    }

    /// Whether the fragment is damaged, is taken for damaged, or differs from the checksums.
    pub fn is_damage(&self) -> bool
        ensures damaged { (p : Place) → Contains (damaged_by self.now (Some p)) p → result ≡ true }
        ensures differs { (p : Place) → Contains (differing_by self.now (Some p)) p → result ≡ true }
        ensures is { result ≡ is_damage self.now }
    {
        matches!(
            self,
            Reason::Damaged | Reason::TakenForDamaged | Reason::Differs
        )
    }

    /// Whether the system refused to read or write something.
    pub fn is_of_device(&self) -> bool
        ensures { result ≡ is_of_device self.now }
    {
        matches!(
            self,
            Reason::Unknown(_) | Reason::Unread(_) | Reason::Unwritten(_) | Reason::Unsettled(_)
        )
    }
}

/// What isn't as it should be: the fragment at a place, or the stripe.
#[derive(Drop)]
pub struct Finding {
    pub place: Option<Place>,
    pub reason: Reason,
}

/// What became of a stripe.
#[derive(Drop)]
pub struct StripeOutcome {
    /// How many bytes each fragment of the stripe has.
    pub length: usize,
    /// The survivors that were used.
    pub survivors: PlaceSet,
    /// Whether these are more than the stripe is determined by, so that damage among them shows, and none was left out by a guess; of a
    /// repair also whether they have bytes.
    pub is_checked: bool,
    /// The places whose fragments were rebuilt and have their names; of a plan, those that would be.
    pub rebuilt: Vec<Place>,
    pub findings: Vec<Finding>,
}

impl StripeOutcome {
    /// A stripe of which nothing was rebuilt.
    pub fn of(alloc: Global, findings: Vec<Finding>) -> StripeOutcome
        ensures rebuilt { result.rebuilt.items ≡ [] }
        ensures findings { result.findings.items ≡ findings.items }
        ensures checked { result.is_checked ≡ false }
        ensures survivors { (p : Place) → is_in result.survivors p ≡ false }
    {
        StripeOutcome {
            length: 0,
            survivors: PlaceSet::empty(),
            is_checked: false,
            rebuilt: Vec::new(alloc),
            findings,
        }
    }

    /// Whether the fragment that was rebuilt at a place is checked: the survivors are, and they cover it, so that it is right though two of
    /// them are damaged.
    pub fn is_checked_at(&self, code: Code, place: Place) -> bool
        ensures checked { result ≡ true → self.now.is_checked ≡ true }
        ensures covered { result ≡ true → IsCovered code (is_in self.now.survivors) place }
    {
        self.is_checked && is_covered(code, self.survivors, place)
    }

    /// Whether a finding is mended: its fragment was rebuilt.
    pub fn is_mended(&self, finding: &Finding) -> bool
        ensures yes { result ≡ true → IsMendedBy self.now.rebuilt.items finding.now.place }
        ensures no { result ≡ false → ¬ IsMendedBy self.now.rebuilt.items finding.now.place }
    {
        match finding.place {
            Some(place) => is_among(self.rebuilt.as_slice(), place),
            None => false,
        }
    }
}

/// Whether a place is listed.
fn is_among(places: &[Place], place: Place) -> bool
    ensures yes { result ≡ true → Contains places.now place }
    ensures no { result ≡ false → ¬ Contains places.now place }
{
    for other in places {
        if other.index() == place.index() {
            return true;
        }
    }
    false
}

/// Whether findings say of the fragment at a place that it is damaged.
pub(crate) fn is_said_damaged(findings: &[Finding], place: Place) -> bool
    ensures { result ≡ true → Contains (said_damaged findings.now) place }
{
    for finding in findings {
        if finding.is_of_damage(place) {
            return true;
        }
    }
    false
}

/// Whether findings say of the fragment at a place that it differs from the store's checksums.
pub(crate) fn is_said_to_differ(findings: &[Finding], place: Place) -> bool
    ensures { result ≡ true → Contains (said_differing findings.now) place }
{
    for finding in findings {
        if finding.is_of_checksums(place) {
            return true;
        }
    }
    false
}

/// Whether findings name the fragment at a place.
pub(crate) fn is_named(findings: &[Finding], place: Place) -> bool
    ensures { result ≡ true → Contains (named findings.now) place }
{
    for finding in findings {
        if finding.names(place) {
            return true;
        }
    }
    false
}

impl Finding {
    /// Whether it says of the fragment at a place that it is damaged.
    fn is_of_damage(&self, place: Place) -> bool
        ensures { result ≡ true → Contains (damaged_by self.now.reason self.now.place) place }
    {
        match self.reason {
            Reason::Damaged => self.names(place),
            _ => false,
        }
    }

    /// Whether it says of the fragment at a place that it differs from the store's checksums.
    fn is_of_checksums(&self, place: Place) -> bool
        ensures { result ≡ true → Contains (differing_by self.now.reason self.now.place) place }
    {
        match self.reason {
            Reason::Differs => self.names(place),
            _ => false,
        }
    }

    /// Whether it is of the fragment at a place.
    fn names(&self, place: Place) -> bool
        ensures { result ≡ true → Contains (named_by self.now.place) place }
    {
        match self.place {
            Some(own) => own.index() == place.index(),
            None => false,
        }
    }
}

/// Notes something of the fragment at a place, or of the stripe.
pub(crate) fn note(
    findings: &mut Vec<Finding>,
    place: Option<Place>,
    reason: Reason,
) -> Result<(), AllocError>
    ensures said { OnOk result (said_damaged findings.new.items ≡ said_damaged findings.old.items ++ damaged_by reason place) }
    ensures named { OnOk result (named findings.new.items ≡ named findings.old.items ++ named_by place) }
    ensures some { OnOk result (findings.new.items ≢ []) }
    ensures unsettled { OnOk result (is_unsettled findings.new.items ≡ (is_unsettled findings.old.items || says_unsettled reason)) }
    ensures length { OnOk result (is_without_length findings.new.items
        ≡ (is_without_length findings.old.items || says_no_length reason)) }
{
    findings.push(Finding { place, reason })?;
    Ok(())
}

/// Notes that none of a stripe's fragments can be read, and which of them can't be looked at.
pub(crate) fn note_no_survivor(
    code: Code,
    stripe: &Stripe<'_>,
    findings: &mut Vec<Finding>,
) -> Result<(), AllocError>
    ensures said { OnOk result (said_damaged findings.new.items ≡ said_damaged findings.old.items) }
    ensures some { OnOk result (findings.new.items ≢ []) }
    ensures length { OnOk result (is_without_length findings.new.items ≡ true) }
{
    note(findings, None, Reason::NoSurvivor)?;
    note_unknown(code, stripe, findings)
}

/// Notes which of a stripe's fragments can't be looked at.
pub(crate) fn note_unknown(
    code: Code,
    stripe: &Stripe<'_>,
    findings: &mut Vec<Finding>,
) -> Result<(), AllocError>
    ensures said { OnOk result (said_damaged findings.new.items ≡ said_damaged findings.old.items) }
    ensures some { OnOk result (findings.old.items ≢ [] → findings.new.items ≢ []) }
    ensures length { OnOk result (is_without_length findings.old.items ≡ true → is_without_length findings.new.items ≡ true) }
{
    for place in code.places() {
        let found = stripe.files.at(*place);
        if matches!(found, Found::Unknown { .. }) {
            note(findings, Some(*place), Reason::of(found))?;
        }
    }
    Ok(())
}
