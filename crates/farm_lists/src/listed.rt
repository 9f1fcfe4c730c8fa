//! Requests as they are listed.
ghost use Rattle.std.specs.Prelude.{◌≡◌, ◌≤◌, length, MatchResult, None, Some, Bool, ◌&&◌};
ghost use Rattle.std.specs.List.{list_any, list_all};
ghost use Rattle.std.specs.String.{string_bytes};
ghost use Rattle.lrc_code.specs.Places.{same_place};
ghost use Rattle.lrc_code.specs.Code.{has_place as code_has};
ghost use Rattle.lrc_code.specs.Codes.{tables_of};
ghost use Rattle.farm_lists.specs.Listed.{ListedRequest, is_listed, listed_refusal, is_listed_twice, survivor_limit};

use lrc_code::{AskedPlaces, Code, Place, RequestFault, first_refusal};
use std::marker::Model;

/// A request as it is listed, before its fragments are read. None of the first four refusals holds of it.
#[derive(Debug, Drop)]
pub struct Listed {
    pub code: Code,
    pub stripe: String,
    pub target: Place,
    /// The length of the fragments in bytes.
    pub length: u32,
    /// The survivors, in the list's order.
    pub survivors: Vec<Place>,
}

impl Model for Listed {
    ghost use Rattle.std.specs.Prelude.{◌≡◌, None};
    ghost use Rattle.std.specs.String.{string_bytes};
    ghost use Rattle.farm_lists.specs.Listed.{ListedRequest, listed_refusal};

    ghost Value = { ListedRequest };

    ghost view = { λ r. record {
      code = r.code;
      stripe = string_bytes r.stripe;
      target = r.target;
      len = r.length;
      survivors = r.survivors.items;
    } };

    ghost invariant = { λ r. listed_refusal (record {
      code = r.code;
      stripe = string_bytes r.stripe;
      target = r.target;
      len = r.length;
      survivors = r.survivors.items;
    }) ≡ None };
}

/// Whether a place is among others.
fn has_place(place: Place, places: &[Place]) -> bool
    ensures { result ≡ is_listed place places.now }
{
    places.iter().any(|other| place == *other)
}

/// Whether all places are the code's.
fn has_all(code: Code, places: &[Place]) -> bool
    ensures { result ≡ list_all (code_has (tables_of code)) places.now }
{
    places.iter().all(|place| code.has(*place))
}

/// Whether the target and all survivors are places of the code.
fn are_places(code: Code, target: Place, survivors: &[Place]) -> bool
    ensures { result ≡ (code_has (tables_of code) target && list_all (code_has (tables_of code)) survivors.now) }
{
    code.has(target) && has_all(code, survivors)
}

/// Whether a place is in a list twice. Goes as deep as the list has places, at most sixteen that differ.
fn has_repeated(places: &[Place]) -> bool
    ensures { result ≡ is_listed_twice places.now }
{
    match places {
        [] => false,
        [first, later @ ..] => has_place(*first, later) || has_repeated(later),
    }
}

/// Why a listed request is refused, if it is.
fn refusal(
    code: Code,
    stripe: &str,
    target: Place,
    length: u32,
    survivors: &[Place],
) -> Option<RequestFault>
    ensures { result ≡ listed_refusal (record {
      code = code;
      stripe = stripe.now;
      target = target;
      len = length;
      survivors = survivors.now;
    }) }
{
    first_refusal(
        stripe,
        length,
        AskedPlaces {
            are_of_the_code: are_places(code, target, survivors),
            has_repeated: has_repeated(survivors),
            has_target: has_place(target, survivors),
        },
        None,
    )
}

impl Listed {
    /// A listed request, unless one of E1, E2, E29, E3 and E4 holds: then the first of them in this order. Takes no memory.
    pub fn new(
        code: Code,
        stripe: String,
        target: Place,
        length: u32,
        survivors: Vec<Place>,
    ) -> Result<Listed, RequestFault>
        ensures { MatchResult result
            (λ r. (r ≡ record { code = code; stripe = string_bytes stripe; target = target; len = length; survivors = survivors.items })
            × (listed_refusal r ≡ None))
            (λ e. listed_refusal (record {
              code = code;
              stripe = string_bytes stripe;
              target = target;
              len = length;
              survivors = survivors.items;
            }) ≡ Some e) }
    {
        if let Some(fault) = refusal(code, &stripe, target, length, &survivors) {
            return Err(fault);
        }
        Ok(Listed {
            code,
            stripe,
            target,
            length,
            survivors,
        })
    }

    /// The code of the stripe.
    pub fn code(&self) -> Code
        ensures { result ≡ self.now.code }
    {
        self.code
    }

    /// The stripe's name.
    pub fn stripe(&self) -> &str
        ensures value { result.now ≡ self.now.stripe }
        ensures accepted { listed_refusal self.now ≡ None }
    {
        self.stripe.as_str()
    }

    /// The lost place that is wanted.
    pub fn target(&self) -> Place
        ensures { result ≡ self.now.target }
    {
        self.target
    }

    /// The length of the fragments in bytes, 1 to 65,536.
    pub fn length(&self) -> u32
        ensures value { result ≡ self.now.len }
        ensures accepted { listed_refusal self.now ≡ None }
    {
        self.length
    }

    /// The survivors, in the list's order.
    pub fn survivors(&self) -> &[Place]
        ensures value { result.now ≡ self.now.survivors }
        ensures few { length self.now.survivors ≤ survivor_limit }
    {
        self.survivors.as_slice()
    }
}
