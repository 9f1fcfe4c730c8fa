//! Sums of the caller's bytes.
ghost use Rattle.std.specs.Prelude.{◌≡◌, ◌≢◌, length, map};
ghost use Rattle.lrc_code.specs.Encoding.{IsParity};
ghost use Rattle.lrc_c.specs.Arguments.{CanCombine};
ghost use Rattle.lrc_c.specs.Lent.{lent};
ghost use Rattle.lrc_field.specs.Field.{times};
ghost use Rattle.lrc_field.specs.Sums.{sums};

use crate::combining::{are_used, combine};
use crate::lent::Lent;
use crate::statuses::{BAD_ARGUMENT, DONE};
use lrc_field::{Gf, add_into, scale_add_into};

/// Adds `src` to `dst` byte by byte. 0: done; 3: the lengths differ, and nothing is written.
#[unsafe(no_mangle)]
pub extern "C" fn lrc_add(dst: &mut [u8], src: &[u8]) -> u32
    ensures done { length dst.old ≡ length src.now → (result ≡ 0) × (dst.new ≡ sums dst.old src.now) }
    ensures refused { length dst.old ≢ length src.now → (result ≡ 3) × (dst.new ≡ dst.old) }
{
    if dst.len() != src.len() {
        return BAD_ARGUMENT;
    }
    add_into(dst, src);
    DONE
}

/// Adds `scalar` times `src` to `dst`, byte by byte in the field. 0: done; 3: the lengths differ, and nothing is written.
#[unsafe(no_mangle)]
pub extern "C" fn lrc_scale_add(dst: &mut [u8], scalar: u8, src: &[u8]) -> u32
    ensures done { length dst.old ≡ length src.now → (result ≡ 0) × (dst.new ≡ sums dst.old (map (times scalar) src.now)) }
    ensures refused { length dst.old ≢ length src.now → (result ≡ 3) × (dst.new ≡ dst.old) }
{
    if dst.len() != src.len() {
        return BAD_ARGUMENT;
    }
    scale_add_into(dst, Gf::new(scalar), src);
    DONE
}

/// Writes the sum of up to sixteen sources, each times its coefficient, over `out`. Sources whose coefficient is not 00
/// have its length. 0: done; 3: there are more sources, another number of coefficients or another length, and nothing is
/// written.
#[unsafe(no_mangle)]
pub extern "C" fn lrc_combine(coefficients: &[Gf], sources: &[Lent], out: &mut [u8]) -> u32
    ensures done { CanCombine coefficients.now (lent sources.now) (length out.old)
        → (result ≡ 0) × IsParity coefficients.now (lent sources.now) (length out.old) out.new }
    ensures refused { ¬ CanCombine coefficients.now (lent sources.now) (length out.old) → (result ≡ 3) × (out.new ≡ out.old) }
{
    if coefficients.len() != sources.len() {
        return BAD_ARGUMENT;
    }
    if coefficients.len() > 16 {
        return BAD_ARGUMENT;
    }
    if !are_used(coefficients, sources, out.len()) {
        return BAD_ARGUMENT;
    }
    combine(coefficients, sources, out);
    DONE
}
