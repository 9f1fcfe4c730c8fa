//! Encoding for C.
ghost use Rattle.std.specs.Prelude.{◌↔◌, ◌≡◌, ◌≤◌, ◌∷◌, [], ◌++◌, length, take, true, false};
ghost use Rattle.std.specs.Bool.{IsTrue};
ghost use Rattle.lrc_code.specs.declared.codes.Code.{Code};
ghost use Rattle.lrc_code.specs.Codes.{data_count, tables_of};
ghost use Rattle.lrc_code.specs.Encoding.{HaveLength, IsEncoding, IsParity};
ghost use Rattle.lrc_c.specs.Lent.{lent};
ghost use Rattle.lrc_c.specs.Windows.{AreRooms, AreWritten};
ghost use Rattle.lrc_c.specs.Encoded.{AreSources};

use crate::arguments::code_numbered;
use crate::checking::learn_lent_bytes;
use crate::lent::Lent;
use crate::statuses::{BAD_ARGUMENT, DONE};
use crate::windows::{Checks, Couple, Wants, write_checked};
use lrc_code::{Code, ParityRows};
use lrc_field::{no_pairs, no_terms, pairs_in, terms_in};

/// Whether each slice has so many bytes.
fn have_length(sources: &[Lent], len: usize) -> bool
    ensures { IsTrue result ↔ HaveLength len (lent sources.now) }
{
    for one in sources {
        if one.bytes.len() != len {
            return false;
        }
    }
    true
}

/// The four parities of a code's data fragments.
fn encode_parities(
    code: Code,
    sources: &[Lent],
    px: &mut [u8],
    py: &mut [u8],
    p0: &mut [u8],
    p1: &mut [u8],
)
    requires count { length sources.now ≡ data_count code }
    requires lengths { HaveLength (length px.old) (lent sources.now) }
    requires rooms { (length py.old ≡ length px.old) × (length p0.old ≡ length px.old) × (length p1.old ≡ length px.old) }
    ensures { IsEncoding (tables_of code) (length px.old) (lent sources.now)
        (lent sources.now ++ (px.new ∷ py.new ∷ p0.new ∷ p1.new ∷ [])) }
{
    learn_lent_bytes(sources);
    write_parities(&code.parities(), sources, px, py, p0, p1);
}

/// The four parities of data fragments, in one pass, with as many coefficients of each row as there are fragments.
fn write_parities(
    rows: &ParityRows,
    sources: &[Lent],
    px: &mut [u8],
    py: &mut [u8],
    p0: &mut [u8],
    p1: &mut [u8],
)
    requires few { length sources.now ≤ 12 }
    requires lengths { HaveLength (length px.old) (lent sources.now) }
    requires rooms { (length py.old ≡ length px.old) × (length p0.old ≡ length px.old) × (length p1.old ≡ length px.old) }
    ensures px { IsParity (take (length sources.now) rows.now.px) (lent sources.now) (length px.old) px.new }
    ensures py { IsParity (take (length sources.now) rows.now.py) (lent sources.now) (length px.old) py.new }
    ensures p0 { IsParity (take (length sources.now) rows.now.p0) (lent sources.now) (length px.old) p0.new }
    ensures p1 { IsParity (take (length sources.now) rows.now.p1) (lent sources.now) (length px.old) p1.new }
{
    let len = px.len();
    let count = sources.len();
    let mut px_room = no_terms();
    let mut py_room = no_terms();
    let mut p0_room = no_terms();
    let mut p1_room = no_terms();
    let mut room = no_pairs();
    let wants = Wants {
        front: Couple {
            first: Some(terms_in(&mut px_room, &rows.px[..count], sources)),
            second: Some(terms_in(&mut py_room, &rows.py[..count], sources)),
            pairs: &[],
        },
        back: Couple {
            first: Some(terms_in(&mut p0_room, &rows.p0[..count], sources)),
            second: Some(terms_in(&mut p1_room, &rows.p1[..count], sources)),
            pairs: pairs_in(&mut room, &rows.p0[..count], &rows.p1[..count], sources),
        },
    };
    write_all(&wants, len, px, py, p0, p1);
}

/// Writes what is wanted over a length, without checks.
fn write_all(wants: &Wants, len: usize, a: &mut [u8], b: &mut [u8], c: &mut [u8], d: &mut [u8])
    requires { AreRooms len wants.now (length a.old) (length b.old) (length c.old) (length d.old) }
    ensures { AreWritten wants.now len a.new b.new c.new d.new }
{
    let none = Checks {
        len,
        first: &[],
        second: &[],
        third: &[],
        fourth: &[],
    };
    let _ = write_checked(&none, wants, a, b, c, d);
}

/// Writes the four parities of the data fragments, which are in the order of the code. 0: done. 3: the code has
/// another number of data fragments, or the lengths differ, and nothing is written.
#[unsafe(no_mangle)]
pub extern "C" fn lrc_encode_into(
    code: u8,
    sources: &[Lent],
    px: &mut [u8],
    py: &mut [u8],
    p0: &mut [u8],
    p1: &mut [u8],
) -> u32
    ensures encoded { (c : Code) → AreSources code (lent sources.now) (length px.old) (length py.old) (length p0.old)
        (length p1.old) c
        → (result ≡ 0) × IsEncoding (tables_of c) (length px.old) (lent sources.now)
        (lent sources.now ++ (px.new ∷ py.new ∷ p0.new ∷ p1.new ∷ [])) }
    ensures refused { ((c : Code) → ¬ AreSources code (lent sources.now) (length px.old) (length py.old) (length p0.old)
        (length p1.old) c)
        → (result ≡ 3) × (px.new ≡ px.old) × (py.new ≡ py.old) × (p0.new ≡ p0.old) × (p1.new ≡ p1.old) }
{
    let len = px.len();
    if py.len() != len {
        return BAD_ARGUMENT;
    }
    if p0.len() != len {
        return BAD_ARGUMENT;
    }
    if p1.len() != len {
        return BAD_ARGUMENT;
    }
    if !have_length(sources, len) {
        return BAD_ARGUMENT;
    }
    let Some(own) = code_numbered(code) else {
        return BAD_ARGUMENT;
    };
    if sources.len() != own.data_count() {
        return BAD_ARGUMENT;
    }
    encode_parities(own, sources, px, py, p0, p1);
    DONE
}
