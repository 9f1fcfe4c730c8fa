//! What all threads of a run share, which of them was refused, and how each is started.
ghost use Rattle.std.specs.Prelude.{◌≡◌, IfErr, IfOk};

use core::thread::Stack;
use std::alloc::Global;
use std::sync::atomic::{AtomicBool, AtomicUsize};
use std::thread::{Promise, PromisedHandle, Scope, SpawnError};

/// The bytes of a thread's stack. The C library keeps the stacks of ended threads for the next ones, 40 MiB at most. Of its own size, 8
/// MiB, that is five: each further one would be mapped for its thread and unmapped after it, which interrupts all processors.
const STACK: usize = 1_048_576;

/// What a run was called with, and which of its threads was refused.
#[derive(Drop)]
pub struct Shared<'s, R, P> {
    pub rt: &'s R,
    pub alloc: Global,
    pub pause: &'s P,
    pub refused: Refusals,
}

/// Which thread was refused. The work of that thread is then called by the thread that was to start it, and reads it here.
#[derive(Drop)]
pub struct Refusals {
    pub collector: AtomicBool,
    /// The number of the worker. Those before it may not have begun yet, and still work.
    pub worker: AtomicUsize,
    /// Feeders that haven't begun yet read it too, and put nothing either.
    pub feeder: AtomicBool,
}

impl Refusals {
    /// No thread was refused.
    pub fn none() -> Refusals {
        Refusals {
            collector: AtomicBool::new(false),
            worker: AtomicUsize::new(usize::MAX),
            feeder: AtomicBool::new(false),
        }
    }
}

/// Starts a thread of a run. The body is handed back where no thread can be made.
pub fn start_thread<'s, E, P: Promise<T> + Drop, F: FnOnce() -> T + Send + 's, T: Send + Drop + 's>(
    scope: &Scope<'s, E>,
    promise: P,
    body: F,
) -> Result<PromisedHandle<T, P>, SpawnError<F>>
    requires runs { F.pre body }
    requires keeps { (r : T) → F.post body r → P.kept_by promise r }
    ensures ok { IfOk result (λ h. h.promise ≡ promise) }
    ensures err { IfErr result (λ e. e.value ≡ body) }
{
    Stack::new()
        .stack_size(STACK)
        .spawn_scoped_with(scope, promise, body)
}
