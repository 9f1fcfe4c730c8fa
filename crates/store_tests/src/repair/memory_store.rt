//! The calls of a store in memory.
use crate::repair::asserting::assert_holds;
use lrc_code::Place;
use std::io::ErrorKind;
use std::process::Abort;
use store_repair::{Fragment, MemoryFragment, MemoryStore, NewFragment, Placed, Store};

/// What is put into a store.
static PUT: [(&str, Place, &[u8]); 4] = [
    ("a", Place::X0, b"one"),
    ("ab", Place::X0, b"two"),
    ("a", Place::P1, b"three"),
    ("a", Place::X0, b"four"),
];

/// What it has then.
static FOUND: [(&str, Place, Option<&[u8]>); 5] = [
    ("a", Place::X0, Some(b"four")),
    ("ab", Place::X0, Some(b"two")),
    ("a", Place::P1, Some(b"three")),
    ("b", Place::X0, None),
    ("a", Place::X1, None),
];

#[test]
fn put_is_found(rt: HostRuntime) {
    let mut store = MemoryStore::new(rt.alloc());
    for (stripe, place, bytes) in &PUT {
        store
            .put(stripe, *place, bytes)
            .expect(&rt, "room for a fragment");
    }
    for (stripe, place, bytes) in &FOUND {
        let is = store.fragment(stripe, *place) == *bytes;
        assert_holds(&rt, is && store.kept(stripe, *place).is_none(), stripe);
    }
}

/// Whether a store has these bytes under x0's name and its second name.
fn has(store: &MemoryStore, bytes: Option<&[u8]>, kept: Option<&[u8]>) -> bool {
    store.fragment("a", Place::X0) == bytes && store.kept("a", Place::X0) == kept
}

/// Why a fragment isn't opened, if it isn't.
fn refusal(store: &MemoryStore, place: Place, length: usize) -> Option<ErrorKind> {
    match store.open("a", place, length) {
        Ok(_) => None,
        Err(error) => Some(error.kind()),
    }
}

/// Whether three bytes of a fragment from 2 on are these, and three from 4 on are too many.
fn is_read(fragment: &MemoryFragment, wanted: [u8; 3]) -> bool {
    let mut bytes = [0; 3];
    let is = fragment.read_at(2, &mut bytes).is_ok() && bytes == wanted;
    match fragment.read_at(4, &mut bytes) {
        Ok(()) => false,
        Err(error) => is && error.kind() == ErrorKind::UnexpectedEof,
    }
}

#[test]
fn opened_fragment_is_read(rt: HostRuntime) {
    let mut store = MemoryStore::new(rt.alloc());
    store
        .put("a", Place::X0, b"abcdef")
        .expect(&rt, "room for a fragment");
    let is_long = refusal(&store, Place::X0, 7) == Some(ErrorKind::UnexpectedEof);
    assert_holds(&rt, is_long, "x0 is shorter");
    let is_absent = refusal(&store, Place::X1, 6) == Some(ErrorKind::NotFound);
    assert_holds(&rt, is_absent, "x1 isn't there");
    let fragment = store.open("a", Place::X0, 6).expect(&rt, "x0");
    assert_holds(&rt, is_read(&fragment, *b"cde"), "x0 is read");
}

/// Makes a fragment of two parts, and gives it the name of x0, which has nothing else than these bytes until then.
fn placed(
    rt: &impl Abort,
    store: &mut MemoryStore,
    parts: [&[u8]; 2],
    before: Option<&[u8]>,
) -> Option<Placed> {
    let mut fragment = store.create("a", Place::X0).expect(rt, "a fragment");
    let is_made = fragment.append(parts[0]).is_ok() && fragment.append(parts[1]).is_ok();
    if !is_made || !has(store, before, None) {
        return None;
    }
    store.place(fragment, "a", Place::X0).ok()
}

#[test]
fn new_fragment_gets_its_name(rt: HostRuntime) {
    let mut store = MemoryStore::new(rt.alloc());
    let first = placed(&rt, &mut store, [b"ab", b"c"], None);
    assert_holds(&rt, first == Some(Placed::Placed), "the first gets it");
    let second = placed(&rt, &mut store, [b"", b""], Some(b"abc"));
    assert_holds(&rt, second == Some(Placed::IsThere), "the second doesn't");
    assert_holds(&rt, has(&store, Some(b"abc"), None), "x0 is the first");
}

/// Replaces x0 by a fragment without bytes.
fn replaced(rt: &impl Abort, store: &mut MemoryStore) -> Option<Placed> {
    let fragment = store.create("a", Place::X0).expect(rt, "a fragment");
    store.replace(fragment, "a", Place::X0).ok()
}

#[test]
fn replaced_fragment_is_kept_once(rt: HostRuntime) {
    let mut store = MemoryStore::new(rt.alloc());
    store
        .put("a", Place::X0, b"abc")
        .expect(&rt, "room for a fragment");
    let first = replaced(&rt, &mut store);
    let is_kept = first == Some(Placed::Placed) && has(&store, Some(b""), Some(b"abc"));
    assert_holds(&rt, is_kept, "it is kept");
    let second = replaced(&rt, &mut store);
    assert_holds(&rt, second == Some(Placed::IsThere), "the second isn't");
}

#[test]
fn discarded_fragment_has_no_name(rt: HostRuntime) {
    let mut store = MemoryStore::new(rt.alloc());
    let fragment = store.create("a", Place::X0).expect(&rt, "a fragment");
    assert_holds(&rt, store.discard(fragment).is_ok(), "it is discarded");
    assert_holds(&rt, store.settle().is_ok(), "it is settled");
    assert_holds(&rt, has(&store, None, None), "it has no name");
}
