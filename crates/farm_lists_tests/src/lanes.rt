//! Digests of the standard and of OpenSSL, in each lane, and any lengths against the crate `sha2`.
ghost use Rattle.std.specs.Prelude.{◌≤◌};

use crate::asserting::assert_holds;
use sha2::{Digest, Sha256};
use sha256_lanes::{HasherOfEight, are_of_one_length, digests, digests_of_eight};
use std::convert::AsSlice;
use std::process::Abort;

/// Asserts that each digest is that of its message by the crate `sha2`.
fn assert_agree<T: AsSlice<u8>>(rt: &impl Abort, messages: &[T], found: &[[u8; 32]]) {
    for number in 0..messages.len().min(found.len()) {
        let plain: [u8; 32] = Sha256::digest(messages[number].as_slice());
        assert_holds(rt, found[number] == plain, number);
    }
}

/// The digests of eight messages of one length, which the crate `sha2` makes too.
fn checked_digests(rt: &impl Abort, messages: &[&[u8]; 8]) -> [[u8; 32]; 8] {
    assert!(rt; are_of_one_length(messages));
    let found = digests_of_eight(messages);
    assert_agree(rt, messages, &found);
    found
}

/// Eight messages of `len` bytes, each in a row of its own.
fn rows_of(len: usize) -> [[u8; 1000]; 8]
    requires { len ≤ 1000 }
{
    let mut rows = [[0u8; 1000]; 8];
    for lane in 0..8usize {
        for i in 0..len {
            rows[lane][i] = ((31 * i + 17 * lane + len) % 251) as u8;
        }
    }
    rows
}

fn digests_of_rows(rt: &impl Abort, len: usize) -> [[u8; 32]; 8]
    requires { len ≤ 1000 }
{
    let rows = rows_of(len);
    checked_digests(
        rt,
        &[
            &rows[0][..len],
            &rows[1][..len],
            &rows[2][..len],
            &rows[3][..len],
            &rows[4][..len],
            &rows[5][..len],
            &rows[6][..len],
            &rows[7][..len],
        ],
    )
}

static OTHER: &[u8] = &[0x5a; 1000];

/// The standard's examples of SHA-256, of 24 and 448 bits, its message of 896 bits, and the empty
/// message. The last two digests are those of OpenSSL.
static PUBLISHED: [(&[u8], &[u8; 32]); 4] = [
    (
        b"",
        b"\xe3\xb0\xc4\x42\x98\xfc\x1c\x14\x9a\xfb\xf4\xc8\x99\x6f\xb9\x24\x27\xae\x41\xe4\x64\x9b\x93\x4c\xa4\x95\x99\x1b\x78\x52\xb8\x55",
    ),
    (
        b"abc",
        b"\xba\x78\x16\xbf\x8f\x01\xcf\xea\x41\x41\x40\xde\x5d\xae\x22\x23\xb0\x03\x61\xa3\x96\x17\x7a\x9c\xb4\x10\xff\x61\xf2\x00\x15\xad",
    ),
    (
        b"abcdbcdecdefdefgefghfghighijhijkijkljklmklmnlmnomnopnopq",
        b"\x24\x8d\x6a\x61\xd2\x06\x38\xb8\xe5\xc0\x26\x93\x0c\x3e\x60\x39\xa3\x3c\xe4\x59\x64\xff\x21\x67\xf6\xec\xed\xd4\x19\xdb\x06\xc1",
    ),
    (
        b"abcdefghbcdefghicdefghijdefghijkefghijklfghijklmghijklmnhijklmnoijklmnopjklmnopqklmnopqrlmnopqrsmnopqrstnopqrstu",
        b"\xcf\x5b\x16\xa7\x78\xaf\x83\x80\x03\x6c\xe5\x9e\x7b\x04\x92\x37\x0b\x24\x9b\x11\xe8\xf0\x7a\x51\xaf\xac\x45\x03\x7a\xfe\xe9\xd1",
    ),
];

/// The digest of a message in a lane, beside other messages of its length.
fn digest_in_lane(rt: &impl Abort, message: &[u8], lane: usize) -> [u8; 32] {
    let mut messages = [OTHER.get(..message.len()).unwrap_or(&[]); 8];
    messages[lane.min(7)] = message;
    checked_digests(rt, &messages)[lane.min(7)]
}

#[test]
fn published_messages_have_their_digests(rt: HostRuntime) {
    for (message, wanted) in &PUBLISHED {
        for lane in 0..8usize {
            let found = digest_in_lane(&rt, message, lane);
            assert_holds(&rt, found == **wanted, (message.len(), lane));
        }
    }
}

/// Lengths around a block's end and the length field's place, and the digest of eight digests in a row. The values are those of OpenSSL.
static AROUND_A_BLOCK: [(usize, &[u8; 32]); 15] = [
    (
        0,
        b"\xda\x49\x74\x40\x9d\xcf\xd7\x85\xce\xc6\x32\x18\x26\x27\x2d\xa5\xcf\x67\x9e\x2d\x48\xa2\x8b\xab\x45\xe7\x7d\x48\x97\x52\xa4\x7b",
    ),
    (
        1,
        b"\x59\xd1\xbe\xe0\x01\xdb\x29\xd9\x7c\xd4\x13\x03\xdd\xfd\x8b\xca\x1b\xe0\xb3\xf1\xfc\x25\x11\xb3\xa1\x8e\x39\xa0\x81\x92\xcb\x99",
    ),
    (
        55,
        b"\x0a\x3e\x91\x18\x03\x91\x8e\xf7\x5b\x53\x37\xbf\xbe\xf3\x25\x1e\x02\x63\x82\x55\xf4\xd7\xef\xea\x67\xad\x65\xd1\xd4\xc1\x66\xac",
    ),
    (
        56,
        b"\x5e\x7f\xc6\xd1\x11\xd2\x2a\xc5\x5e\xf4\xad\xd3\x98\xcc\x7a\xde\x6e\xcf\xdf\xb8\x08\xed\xd0\x43\x60\x21\x70\x6e\xa4\x87\xc7\x7b",
    ),
    (
        63,
        b"\xbc\x19\x1c\x24\xf4\x0c\x51\x82\xc2\x6c\xd7\xb5\xe0\xea\x57\x08\x5f\x51\x7a\x8e\x18\x78\xf1\xb4\xe8\x8b\xf6\x35\x81\x2f\xc6\x2c",
    ),
    (
        64,
        b"\xe8\x79\x1d\x6b\x97\xb2\x61\x24\xca\x71\xe2\x9d\x65\x01\xdb\x53\xf5\x34\x5e\x4e\x36\x3f\xac\x08\x24\x1c\xa2\x43\x3f\xae\xdc\x7e",
    ),
    (
        65,
        b"\x60\xe4\x57\x3f\x38\x01\x8c\x2b\x01\xa9\xe5\xab\x1e\xfc\x46\xe5\x49\x5e\x4d\x4d\x83\x02\x44\x05\xba\x23\x23\x6b\xf3\xa2\x09\x20",
    ),
    (
        119,
        b"\x00\x6c\xd4\xb3\x30\x23\x52\x8e\x11\x79\x59\x49\xa7\xba\xaa\x58\xf1\x0b\x3a\x8b\x65\xca\x1d\xd4\xdd\x52\x03\x10\x14\x98\x36\x70",
    ),
    (
        120,
        b"\x3a\x26\x2e\x9c\x5b\x75\xae\x5b\x51\x60\x54\xd7\xa8\x34\x66\xac\x57\xdb\x08\x2b\xd5\x5e\xba\x53\xb2\x95\x11\x67\x7b\xbe\x87\x14",
    ),
    (
        127,
        b"\xb6\xcf\x67\x98\x88\x55\x6f\x39\xcb\xdf\x37\xe3\x06\xa4\x80\x2b\xdf\xa4\x9e\x2e\x19\x4f\x5e\xde\x97\x08\xe3\xdf\x31\xfd\x12\x3d",
    ),
    (
        128,
        b"\xf6\xea\x3b\x20\x1e\x79\x06\x4c\x27\x31\x21\x10\x71\xdb\xf8\xca\x9c\x2f\x9a\x17\x15\x34\xf4\x97\xdc\x30\xc3\x26\x09\x61\xc7\xd4",
    ),
    (
        183,
        b"\x03\x3d\xed\x0f\xc9\x72\xc0\x1f\xf7\x96\x12\x82\xf7\x93\xcb\x46\xc8\x73\x7e\x9e\x4b\x09\x7b\x2c\x18\x7d\x2c\xcc\xe5\x08\xe9\x8d",
    ),
    (
        184,
        b"\x8b\x98\x7d\x41\x1a\x45\xce\xb0\x9d\xa9\xdb\xf8\x28\x0c\x52\xd2\xe8\xcd\xa9\x5a\x50\x9c\xdb\x4a\x74\xf0\x5d\xd8\x9a\x8b\x6b\x7a",
    ),
    (
        192,
        b"\x49\x71\x87\x76\x06\xd2\xf5\x85\x5b\x0c\xbf\x1c\x80\xc3\x29\x80\x8e\xf3\xbc\xb1\x12\x02\x7f\xf1\x5b\x88\xab\xac\x62\xae\x18\xd3",
    ),
    (
        1000,
        b"\xad\x90\x6a\x2b\x69\xbb\x51\xc7\x46\x71\xae\xd4\x28\x55\x32\x57\x3d\x93\x03\x8e\x75\xb8\x84\x65\x7c\xd8\xc7\xcc\xef\x9e\x2b\xa5",
    ),
];

/// Each lane at each length up to 300 against the crate's own hasher, and at lengths around a block also against OpenSSL.
#[test]
fn every_length_has_its_digests(rt: HostRuntime) {
    for len in 0..301usize {
        digests_of_rows(&rt, len);
    }
    for number in 0..AROUND_A_BLOCK.len() {
        let row = &AROUND_A_BLOCK[number];
        let found = digest_of_digests(&digests_of_rows(&rt, 1000.min(row.0)));
        assert_holds(&rt, found == *row.1, row.0);
    }
}

fn digest_of_digests(digests: &[[u8; 32]; 8]) -> [u8; 32] {
    let mut hasher = Sha256::new();
    for one in digests.iter() {
        hasher.update(one.as_slice());
    }
    hasher.finalize()
}

/// Lengths of messages, with runs of one length, too short and long enough, between others.
static MIXED: [usize; 40] = [
    3, 64, 64, 64, 64, 64, 64, 64, 9, 55, 55, 55, 55, 55, 55, 55, 55, 56, 120, 120, 120, 120, 120,
    120, 120, 120, 120, 120, 120, 120, 120, 120, 120, 120, 0, 1, 1, 1, 1, 1,
];

/// Messages of these lengths.
fn mixed_messages(row: &[u8; 1000]) -> [&[u8]; 40] {
    let mut messages = [row.as_slice(); 40];
    for i in 0..40usize {
        messages[i] = row[i..].get(..MIXED[i]).unwrap_or(row);
    }
    messages
}

#[test]
fn messages_of_mixed_lengths_agree_with_sha2(rt: HostRuntime) {
    let row = rows_of(200)[3];
    let messages = mixed_messages(&row);
    let mut found = [[0u8; 32]; 40];
    digests(&messages, &mut found);
    assert_agree(&rt, &messages, &found);
    let no_messages: [&[u8]; 0] = [];
    digests(&no_messages, &mut []);
}

/// Messages that are owned: nine arrays, so eight in the lanes and one after them.
#[test]
fn owned_messages_agree_with_sha2(rt: HostRuntime) {
    let mut messages = [[7u8; 65]; 9];
    for i in 0..9usize {
        messages[i][64] = i as u8;
    }
    let mut found = [[0u8; 32]; 9];
    digests(&messages, &mut found);
    assert_agree(&rt, &messages, &found);
}

/// Whether eight messages, of which the one in a lane is shorter, are taken for some of one length.
fn are_taken_for_one_length(lane: usize) -> bool {
    let mut eight: [&[u8]; 8] = [&[7; 9]; 8];
    if lane < 8 {
        eight[lane] = &[7; 8];
    }
    are_of_one_length(&eight)
}

#[test]
fn another_length_in_any_lane_is_seen(rt: HostRuntime) {
    for lane in 0..=8usize {
        assert_holds(&rt, are_taken_for_one_length(lane) == (lane == 8), lane);
    }
}

/// 192 bytes of 61 in two pieces, and then a byte that is another one in each lane.
fn digests_of_pieces() -> [[u8; 32]; 8] {
    let one: &[u8] = &[0x61; 64];
    let two: &[u8] = &[0x61; 128];
    let mut hasher = HasherOfEight::new();
    hasher.update(&[two; 8]);
    hasher.update(&[one; 8]);
    hasher.finalize(&[b"0", b"1", b"2", b"3", b"4", b"5", b"6", b"7"])
}

#[test]
fn messages_come_in_pieces(rt: HostRuntime) {
    let mut messages = [[0x61u8; 193]; 8];
    for lane in 0..8usize {
        messages[lane][192] = b'0' + lane as u8;
    }
    assert_agree(&rt, &messages, &digests_of_pieces());
}
