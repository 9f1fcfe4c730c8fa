//! The memory of answered requests, which the requests of later lines are read into. No contract says what it holds, since that changes no
//! reply.
ghost use Rattle.std.specs.Prelude.{◌≡◌, [], IfOk};

use lrc_code::{Fragment, Request};
use std::alloc::{AllocError, Global};
use std::mem::replace;

/// How many survivors a request has at most; with room for them their list needn't grow.
const MOST_SURVIVORS: usize = 15;

/// The memory of a list of survivors, and that of the bytes of survivors, of a vector each.
pub(crate) struct KeptMemory {
    list: Vec<Fragment>,
    rooms: Vec<Vec<u8>>,
}

impl Drop for KeptMemory {
    fn drop(self) {
        let KeptMemory { list: _, rooms: _ } = self;
    }
}

impl KeptMemory {
    /// No memory yet, and it takes none.
    pub(crate) fn new(alloc: Global) -> KeptMemory {
        KeptMemory {
            list: Vec::new(alloc),
            rooms: Vec::new(alloc),
        }
    }

    /// A list of no survivors, with room for the most that a request has. It is taken from what is kept, where a list is.
    pub(crate) fn take_list(&mut self, alloc: Global) -> Result<Vec<Fragment>, AllocError>
        ensures { IfOk result (λ list. list.items ≡ []) }
    {
        let mut list = replace(&mut self.list, Vec::new(alloc));
        list.clear();
        list.reserve(MOST_SURVIVORS)?;
        Ok(list)
    }

    /// A vector for the bytes of one survivor, whatever it holds: a kept one, or else a new one without memory.
    pub(crate) fn take_room(&mut self, alloc: Global) -> Vec<u8> {
        match self.rooms.pop() {
            Some(room) => room,
            None => Vec::new(alloc),
        }
    }

    /// Keeps the memory of a request's survivors. There are never more vectors than one of the requests had survivors, of which an accepted
    /// one has 15 at most, since each request took its own from them.
    pub(crate) fn keep(&mut self, request: Request) -> Result<(), AllocError> {
        let mut list = request.into_survivors();
        while let Some(fragment) = list.pop() {
            self.rooms.push(fragment.bytes)?;
        }
        self.list = list;
        Ok(())
    }
}
