//! The requests for what is lost: a list, or JSON.
ghost use Rattle.std.specs.Prelude.{◌≤◌, true};

use crate::rows::{Rows, quoted};
use lrc_code::{Code, Place, PlaceSet, is_stripe_name};
use std::alloc::{AllocError, Global};
use store_repair::Stripe;

/// The longest fragment that a list can ask for, in bytes.
pub(crate) const MOST_BYTES: u64 = 65_536;

/// The first line of a list.
pub fn header_of(code: Code) -> &'static str {
    match code {
        Code::Narrow => "order,stripe,target,length,survivors\n",
        Code::Wide => "order,stripe,target,length,survivors,code\n",
    }
}

/// The requests for lost fragments of a stripe, whose fragments have so many bytes, if a list takes them; as JSON, of any stripe.
pub fn request_lines(
    alloc: Global,
    code: Code,
    stripe: &Stripe<'_>,
    length: u64,
    places: &[Place],
    form: Rows,
) -> Result<Option<String>, AllocError> {
    if form == Rows::Csv && !can_be_asked(stripe.name, length) {
        return Ok(None);
    }
    let wanted = Wanted {
        code,
        stripe: stripe.name,
        length,
        survivors: stripe.files.survivors(code, length),
    };
    let mut lines = String::new(alloc);
    for place in places {
        let line = match form {
            Rows::Csv => wanted.line(alloc, *place)?,
            Rows::Json => wanted.object(alloc, *place)?,
        };
        lines.push_str(line.as_str())?;
    }
    Ok(Some(lines))
}

/// What the requests for the lost fragments of a stripe have in common.
#[derive(Clone, Copy)]
struct Wanted<'a> {
    code: Code,
    stripe: &'a str,
    length: u64,
    survivors: PlaceSet,
}

impl<'a> Wanted<'a> {
    /// The request for a lost fragment, as an object.
    fn object(&self, alloc: Global, target: Place) -> Result<String, AllocError> {
        let stripe = quoted(alloc, self.stripe)?;
        let target = target.name();
        let length = self.length;
        let survivors = names_of(alloc, self.code, self.survivors, "\",\"")?;
        let quote = if survivors.is_empty() { "" } else { "\"" };
        let code = self.code.text();
        let head = format!(in alloc;
            "\"order\":\"rebuild\",\"stripe\":{stripe},\"target\":\"{target}\""
        )?;
        format!(in alloc;
            "{{{head},\"length\":{length},\"survivors\":[{quote}{survivors}{quote}],\"code\":\"{code}\"}}\n"
        )
    }

    /// The request for a lost fragment, as a record of a list.
    fn line(&self, alloc: Global, target: Place) -> Result<String, AllocError> {
        let stripe = self.stripe;
        let target = target.name();
        let length = self.length;
        let survivors = names_of(alloc, self.code, self.survivors, " ")?;
        let code = match self.code {
            Code::Narrow => "",
            Code::Wide => ",12-2-2",
        };
        format!(in alloc; "rebuild,{stripe},{target},{length},{survivors}{code}\n")
    }
}

/// The names of the places of a set, with a text between two.
fn names_of(
    alloc: Global,
    code: Code,
    places: PlaceSet,
    between: &str,
) -> Result<String, AllocError> {
    let mut names = String::new(alloc);
    for place in code.places() {
        if places.has(*place) {
            let separator = if names.is_empty() { "" } else { between };
            names.push_str(separator)?;
            names.push_str(place.name())?;
        }
    }
    Ok(names)
}

/// Whether a list takes a stripe of this name and length.
fn can_be_asked(stripe: &str, length: u64) -> bool {
    length > 0 && length <= MOST_BYTES && is_stripe_name(stripe)
}
