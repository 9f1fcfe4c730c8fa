//! The names of `lrc_field`.
use crate::assertions::assert_so;
use lrc_field::laws::{
    addition_associates, addition_commutes, inverse_exists, multiplication_associates,
    multiplication_commutes, multiplication_distributes,
};
use lrc_field::{Gf, add_into, scale_add_into};

/// Whether the calls of an element give what they must.
fn are_called(a: Gf, b: Gf) -> bool {
    a.add(b).byte() == 0x01
        && a.mul(b).byte() == 0x06
        && matches!(a.inverse(), Some(i) if i.byte() == 0x8e)
}

/// What the calls over slices leave of a byte.
fn summed() -> [u8; 1] {
    let mut dst = [0x80u8];
    add_into(&mut dst, &[0x01]);
    scale_add_into(&mut dst, Gf::new(0x02), &[0x80]);
    dst
}

#[test]
fn field_has_its_names(rt: HostRuntime) {
    assert_so(
        &rt,
        are_called(Gf::new(0x02), Gf::new(0x03)) && summed() == [0x9c],
    );
    addition_associates();
    addition_commutes();
    multiplication_associates();
    multiplication_commutes();
    multiplication_distributes();
    inverse_exists();
}
