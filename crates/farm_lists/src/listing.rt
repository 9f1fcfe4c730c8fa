//! Request lists, by csv's own reading.
ghost use Rattle.std.specs.Prelude.{◌≡◌, ◌==◌, ◌&&◌, ℕ, List, ◌<◌, ◌≤◌, Ok, Err, OnOk, ◌++◌, ◌∷◌, [], IfOk, IfErr, IfSome, IfNone, codes};
ghost use Rattle.std.specs.Prelude.{length, map, option_map, if◌then◌else◌};
ghost use Rattle.std.specs.List.{slice_split};
ghost use Rattle.std.specs.Cmp.Lexicographic.{pointwise};
ghost use Rattle.std.specs.Str.{bytes_eq};
ghost use Rattle.csv.specs.Records.{fields_of};
ghost use Rattle.lrc_code.specs.Text.{every, is_space, place_named};
ghost use Rattle.lrc_code.specs.Codes.{tables_of};
ghost use Rattle.farm_lists.specs.Listing.{IsFaultOf, IsRecordFault, SoFar, Stops, close_at, coded_header, header};
ghost use Rattle.farm_lists.specs.Listing.{list_of, listed, order_at, order_in, record_limit, places, rebuild_at};
ghost use Rattle.farm_lists.specs.declared.listing.ListFault.TheVariants as fault;
ghost use Rattle.farm_lists.specs.Views.{HasFields, IsOrderFault, IsRebuildFault, field_count};

use crate::listed::Listed;
use csv::{ByteRecord, ReaderBuilder};
use lrc_code::text::parse_number;
use lrc_code::{Code, Place, RequestFault};
use std::alloc::{AllocError, AllocFailed, Global};
use thiserror::Error;

/// A record of a list.
#[derive(Debug, Drop)]
pub enum Record {
    /// To rebuild a fragment.
    Rebuild(Listed),
    /// To answer no record after this one.
    Close,
}

/// Why a list is refused: its first fault. Records are numbered from 1 after the header.
#[derive(Clone, Copy, Debug, Error, PartialEq, Eq)]
pub enum ListFault {
    /// E25: the list has more than 1,048,576 bytes.
    #[error("the list has more than 1048576 bytes")]
    InputTooLong,
    /// E19: the first record isn't the header, or there is none.
    #[error("the first record is not the header")]
    BadHeader,
    /// E20: a record that has neither the form of a rebuild nor that of a close.
    #[error("record {number} is neither a rebuild nor a close")]
    BadRecord { number: usize },
    /// E21: a record whose request is refused.
    #[error("the request of record {number} is refused: {fault}")]
    Refused { number: usize, fault: RequestFault },
    /// E26: there are more than 4,096 records.
    #[error("the list has more than 4096 orders")]
    TooManyOrders,
    /// E16: memory was refused.
    #[error("out of memory")]
    OutOfMemory,
}

impl From<AllocError> for ListFault {
    ghost from_gives = { λ _ f. f ≡ fault.OutOfMemory };

    fn from(_error: AllocError) -> ListFault {
        ListFault::OutOfMemory
    }
}

impl<T: Drop> From<AllocFailed<T>> for ListFault {
    ghost from_gives = { λ _ f. f ≡ fault.OutOfMemory };

    fn from(_error: AllocFailed<T>) -> ListFault {
        ListFault::OutOfMemory
    }
}

/// The most bytes of a list. `specs/Listing.antt` has it for contracts.
pub const MOST_LIST_BYTES: usize = 1_048_576;

/// The most records of a list after its header, as many as a farm takes of a feed.
pub const MOST_RECORDS: usize = 4096;

/// The records of a list, or its first fault. They are read as `csv` reads with its default settings, but that no record is
/// taken as a header and records may differ in their number of fields.
pub fn read_list(alloc: Global, bytes: &[u8]) -> Result<Vec<Record>, ListFault>
    ensures read { IfOk result (λ v. list_of bytes.now ≡ Ok v.items) }
    ensures few { IfOk result (λ v. length v.items ≤ record_limit) }
    ensures fault { IfErr result (λ f. IsFaultOf f (list_of bytes.now)) }
{
    if bytes.len() > MOST_LIST_BYTES {
        return Err(ListFault::InputTooLong);
    }
    let rdr = ReaderBuilder::new()
        .has_headers(false)
        .flexible(true)
        .from_reader(alloc, bytes);
    let mut list = Vec::new(alloc);
    let mut number = 0usize;
    let mut coded = false;
    for row in rdr.into_byte_records() {
        let Ok(row) = row else {
            return Err(ListFault::OutOfMemory);
        };
        take_row(alloc, &mut list, number, &mut coded, &row)?;
        number += 1;
    }
    if number == 0 {
        return Err(ListFault::BadHeader);
    }
    Ok(list)
}

/// Takes one more record: the header, which says whether records name their codes, or an order.
fn take_row(
    alloc: Global,
    list: &mut Vec<Record>,
    number: usize,
    coded: &mut bool,
    row: &ByteRecord,
) -> Result<(), ListFault>
    ensures ok { OnOk result ((number ≤ record_limit) × ((rows : List (List (List ℕ))) → length rows ≡ number
        → SoFar coded.old rows list.old.items → SoFar coded.new (rows ++ fields_of row.now ∷ []) list.new.items)) }
    ensures err { IfErr result (λ f. (rows : List (List (List ℕ))) → length rows ≡ number → SoFar coded.old rows list.old.items
        → Stops f (rows ++ fields_of row.now ∷ [])) }
{
    if number == 0 {
        let plain = is_header(false, row);
        *coded = !plain;
        return if plain || is_header(true, row) {
            Ok(())
        } else {
            Err(ListFault::BadHeader)
        };
    }
    if number > MOST_RECORDS {
        return Err(ListFault::TooManyOrders);
    }
    let order = order_of(alloc, *coded, number, row)?;
    list.push(order)?;
    Ok(())
}

/// The fields of a record. Only a list whose header names it has the last.
#[derive(Clone, Copy)]
struct Fields<'a> {
    order: &'a [u8],
    stripe: &'a [u8],
    target: &'a [u8],
    length: &'a [u8],
    survivors: &'a [u8],
    code: Option<&'a [u8]>,
}

/// How many fields a record has, in a list with codes or without.
fn field_count(coded: bool) -> usize
    ensures { result ≡ field_count coded }
{
    if coded { 6 } else { 5 }
}

/// The fields of a record, where it has as many as a list with codes, or without, asks for.
fn fields_in(coded: bool, row: &ByteRecord) -> Option<Fields<'_>>
    ensures fields { IfSome result (HasFields coded (fields_of row.now)) }
    ensures other { IfNone result (length (fields_of row.now) ≡ field_count coded → ⊥) }
{
    if row.len() != field_count(coded) {
        return None;
    }
    Some(Fields {
        order: row.get(0)?,
        stripe: row.get(1)?,
        target: row.get(2)?,
        length: row.get(3)?,
        survivors: row.get(4)?,
        code: row.get(5),
    })
}

/// Whether a record is the header of a list with codes, or without.
fn is_header(coded: bool, row: &ByteRecord) -> bool
    ensures { result ≡ pointwise bytes_eq (fields_of row.now) (if coded then coded_header else header) }
{
    let Some(f) = fields_in(coded, row) else {
        return false;
    };
    let named = f.order == b"order".as_slice()
        && f.stripe == b"stripe".as_slice()
        && f.target == b"target".as_slice()
        && f.length == b"length".as_slice()
        && f.survivors == b"survivors".as_slice();
    match f.code {
        Some(code) => named && code == b"code".as_slice(),
        None => named,
    }
}

/// The order of record `number`, by its fields.
fn order_of(
    alloc: Global,
    coded: bool,
    number: usize,
    row: &ByteRecord,
) -> Result<Record, ListFault>
    ensures ok { IfOk result (λ o. order_at coded number (fields_of row.now) ≡ Ok o) }
    ensures err { IfErr result (λ f. IsRecordFault f coded number (fields_of row.now)) }
{
    let Some(fields) = fields_in(coded, row) else {
        return Err(ListFault::BadRecord { number });
    };
    match fields.code {
        Some(name) => order_in(alloc, Code::parse(name), name.is_empty(), number, &fields),
        None => order_in(alloc, Some(Code::UNNAMED), true, number, &fields),
    }
}

/// The order of record `number`, by its first five fields, over this code, where one is named, with or without something after.
fn order_in(
    alloc: Global,
    code: Option<Code>,
    blank: bool,
    number: usize,
    fields: &Fields<'_>,
) -> Result<Record, ListFault>
    ensures ok { IfOk result (λ o. order_in code blank number fields.now.order.now fields.now.stripe.now fields.now.target.now
        fields.now.length.now fields.now.survivors.now ≡ Ok o) }
    ensures err { IfErr result (λ f. IsOrderFault f number
        (order_in code blank number fields.now.order.now fields.now.stripe.now fields.now.target.now fields.now.length.now
        fields.now.survivors.now)) }
{
    if fields.order == b"rebuild".as_slice() {
        let Some(code) = code else {
            return Err(ListFault::BadRecord { number });
        };
        return rebuild_of(alloc, code, number, fields);
    }
    if is_close(blank, fields) {
        Ok(Record::Close)
    } else {
        Err(ListFault::BadRecord { number })
    }
}

/// Whether a record is a `close`: every other field is empty, and the rest of the record, which the caller has looked at, is blank.
fn is_close(blank: bool, fields: &Fields<'_>) -> bool
    ensures { result ≡ (bytes_eq fields.now.order.now (codes "close") &&
        (length fields.now.stripe.now == 0 && (length fields.now.target.now == 0 &&
        (length fields.now.length.now == 0 && (length fields.now.survivors.now == 0 && blank))))) }
{
    fields.order == b"close".as_slice()
        && fields.stripe.is_empty()
        && fields.target.is_empty()
        && fields.length.is_empty()
        && fields.survivors.is_empty()
        && blank
}

/// The order of record `number`, which is to list a request.
fn rebuild_of(
    alloc: Global,
    code: Code,
    number: usize,
    fields: &Fields<'_>,
) -> Result<Record, ListFault>
    ensures ok { IfOk result (λ o. rebuild_at number (listed code fields.now.stripe.now fields.now.target.now fields.now.length.now
        fields.now.survivors.now) ≡ Ok o) }
    ensures err { IfErr result (λ f. IsRebuildFault f number
        (listed code fields.now.stripe.now fields.now.target.now fields.now.length.now fields.now.survivors.now)) }
{
    let Some(target) = code.named(fields.target) else {
        return Err(ListFault::BadRecord { number });
    };
    let Some(length) = parse_number(fields.length) else {
        return Err(ListFault::BadRecord { number });
    };
    let Some(survivors) = parse_places(alloc, code, fields.survivors)? else {
        return Err(ListFault::BadRecord { number });
    };
    let Ok(stripe) = String::from_utf8(Vec::from_slice(alloc, fields.stripe)?) else {
        return Err(ListFault::Refused {
            number,
            fault: RequestFault::BadStripe,
        });
    };
    match Listed::new(code, stripe, target, length, survivors) {
        Ok(listed) => Ok(Record::Rebuild(listed)),
        Err(fault) => Err(ListFault::Refused { number, fault }),
    }
}

/// The places that names with one space between two give.
fn parse_places(alloc: Global, code: Code, text: &[u8]) -> Result<Option<Vec<Place>>, AllocError>
    ensures { IfOk result (λ v. option_map (λ s. s.items) v ≡ places code text.now) }
{
    if text.is_empty() {
        return Ok(Some(Vec::new(alloc)));
    }
    let names = split_at_spaces(alloc, text)?;
    parse_names(alloc, code, names.as_slice())
}

/// The parts between the spaces of a text.
fn split_at_spaces(alloc: Global, text: &[u8]) -> Result<Vec<&[u8]>, AllocError>
    ensures { IfOk result (λ v. map (λ w. w.now) v.items ≡ slice_split is_space text.now) }
{
    text.split(|b| *b == b' ').collect(alloc)
}

/// The places with these names; none if one of them names no place of the code.
fn parse_names(alloc: Global, code: Code, names: &[&[u8]]) -> Result<Option<Vec<Place>>, AllocError>
    ensures { IfOk result (λ v. option_map (λ s. s.items) v ≡ every (map (λ n. place_named (tables_of code) n.now) names.now)) }
{
    let mut places = Vec::new(alloc);
    for name in names {
        match code.named(name) {
            Some(place) => places.push(place)?,
            None => return Ok(None),
        }
    }
    Ok(Some(places))
}
