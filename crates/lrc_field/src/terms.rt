//! Scalars with the bytes that they scale, and lists of them.
ghost use Rattle.std.specs.Prelude.{◌≡◌, ◌≢◌, ◌≤◌, ℕ, All, List, [], length, map, take, slice_index, slice_index_or, true, false};
ghost use Rattle.lrc_field.specs.Field.{times};
ghost use Rattle.lrc_field.specs.Combined.{sum_at};
ghost use Rattle.lrc_field.specs.Sums.{column, combination};
ghost use Rattle.lrc_field.specs.Terms.{AreTermsOf, HaveLengthWhereUsed};

use crate::element::Gf;

/// A scalar, and the bytes that it scales. The bytes come first, so that nothing lies before them that a copy would have to wait for.
#[derive(Clone, Copy)]
pub struct Term<'a> {
    pub bytes: &'a [u8],
    pub scalar: Gf,
}

/// Something with bytes that a scalar may scale.
pub trait Source<'a> {
    ghost bytes_of: { Self → List ℕ };

    /// The bytes.
    fn bytes(&self) -> &'a [u8]
        ensures { result.now ≡ bytes_of self.now };
}

impl<'a> Source<'a> for &'a [u8] {
    ghost bytes_of = { λ s. s.now };

    #[inline(always)]
    fn bytes(&self) -> &'a [u8] {
        *self
    }
}

/// Room for sixteen terms, which has none yet.
#[inline(always)]
pub fn no_terms<'a>() -> [Term<'a>; 16]
    ensures { All (λ t. t.scalar ≡ 0) result }
{
    [
        no_term(),
        no_term(),
        no_term(),
        no_term(),
        no_term(),
        no_term(),
        no_term(),
        no_term(),
        no_term(),
        no_term(),
        no_term(),
        no_term(),
        no_term(),
        no_term(),
        no_term(),
        no_term(),
    ]
}

/// 00 times no bytes. A call for each, since such a value isn't copied while its bytes are lent.
fn no_term<'a>() -> Term<'a>
    ensures { result.scalar ≡ 0 }
{
    Term {
        bytes: &[],
        scalar: Gf::new(0),
    }
}

/// The terms of sources with at most sixteen coefficients, one for each source: a term for each coefficient that isn't 00, unless there
/// is no source at its index or that source is empty. They are written at the start of the room, which is the caller's, since it has
/// hundreds of bytes, which would be copied on their way back.
pub fn terms_in<'s, 'a, S: Source<'a>>(
    room: &'s mut [Term<'a>; 16],
    coefficients: &[Gf],
    sources: &[S],
) -> &'s [Term<'a>]
    requires many { length room.old ≡ 16 }
    requires few { length coefficients.now ≤ 16 }
    ensures few { length result.now ≤ 16 }
    ensures sums { (i : ℕ) → sum_at result.now i ≡ combination coefficients.now (column (map S.bytes_of sources.now) i) }
    ensures terms { (len : ℕ) → HaveLengthWhereUsed coefficients.now (map S.bytes_of sources.now) len
        → AreTermsOf coefficients.now (map S.bytes_of sources.now) len result.now }
{
    let count = fill_room(room, coefficients, sources);
    &room[..count]
}

/// Writes the terms at the start of the room, and returns how many there are.
fn fill_room<'a, S: Source<'a>>(
    room: &mut [Term<'a>; 16],
    coefficients: &[Gf],
    sources: &[S],
) -> usize
    requires many { length room.old ≡ 16 }
    requires few { length coefficients.now ≤ 16 }
    ensures len { length room.new ≡ 16 }
    ensures count { result ≤ 16 }
    ensures sums { (i : ℕ) → sum_at (take result room.new) i ≡ combination coefficients.now (column (map S.bytes_of sources.now) i) }
    ensures terms { (len : ℕ) → HaveLengthWhereUsed coefficients.now (map S.bytes_of sources.now) len
        → AreTermsOf coefficients.now (map S.bytes_of sources.now) len (take result room.new) }
{
    let mut count = 0;
    for k in 0..coefficients.len() {
        let scalar = coefficients[k];
        if has_products(scalar, sources, k) {
            let bytes = bytes_at(sources, k);
            room[count] = Term { bytes, scalar };
            count += 1;
        }
    }
    count
}

/// The bytes of the source at an index; none where there is no source.
#[inline(always)]
pub(crate) fn bytes_at<'a, S: Source<'a>>(sources: &[S], k: usize) -> &'a [u8]
    ensures { result.now ≡ slice_index_or (map S.bytes_of sources.now) k [] }
{
    if k >= sources.len() {
        return &[];
    }
    sources[k].bytes()
}

/// Whether a scalar's products with the bytes of the source at an index may be other than 00. Most scalars are 00, and then the source
/// isn't looked at. It gives no option with the bytes, since an option's copies wait for their own writes.
#[inline(always)]
fn has_products<'a, S: Source<'a>>(scalar: Gf, sources: &[S], k: usize) -> bool
    ensures yes { result ≡ true → (scalar ≢ 0) × (length (slice_index_or (map S.bytes_of sources.now) k []) ≢ 0) }
    ensures no { result ≡ false → (i : ℕ) → times scalar (slice_index (slice_index_or (map S.bytes_of sources.now) k []) i) ≡ 0 }
{
    scalar.byte() != 0 && !bytes_at(sources, k).is_empty()
}
