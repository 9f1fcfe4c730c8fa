//! Sums and scaled sums of byte slices, 32 bytes at a time.
ghost use Rattle.std.specs.Prelude.{◌≡◌, length, map};
ghost use Rattle.lrc_field.specs.Field.{times};
ghost use Rattle.lrc_field.specs.Sums.{sums};

use crate::blocks::{self, Tables};
use crate::element::Gf;

/// Adds each byte of `src` to the byte of `dst` at its index. The slices have one length.
pub fn add_into(dst: &mut [u8], src: &[u8])
    requires { length dst.old ≡ length src.now }
    ensures { dst.new ≡ sums dst.old src.now }
{
    let mut at = 0;
    'lanes: while dst.len() - at >= 32 {
        blocks::add_block(dst, at, src);
        at += 32;
    }
    for i in at..dst.len() {
        dst[i] ^= src[i];
    }
}

/// Adds `c` times each byte of `src` to the byte of `dst` at its index. The slices have one length.
pub fn scale_add_into(dst: &mut [u8], c: Gf, src: &[u8])
    requires { length dst.old ≡ length src.now }
    ensures { dst.new ≡ sums dst.old (map (times c) src.now) }
{
    if c.byte() == 1 {
        add_into(dst, src);
    } else {
        add_products(dst, c, src);
    }
}

/// Adds to each byte its product with the byte of the source, 32 at once, then 16, then one by one.
fn add_products(dst: &mut [u8], c: Gf, src: &[u8])
    requires { length dst.old ≡ length src.now }
    ensures { dst.new ≡ sums dst.old (map (times c) src.now) }
{
    let tables = Tables::new(c);
    let mut at = 0;
    'lanes: while dst.len() - at >= 32 {
        blocks::scale_add_block(dst, at, tables, src);
        at += 32;
    }
    'halves: while dst.len() - at >= 16 {
        blocks::scale_add_half(dst, at, tables, src);
        at += 16;
    }
    for i in at..dst.len() {
        dst[i] ^= c.mul(Gf::new(src[i])).byte();
    }
}
