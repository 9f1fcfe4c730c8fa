//! A worker: the jobs that it takes and the replies that it puts, how it is started and joined, and how its ends are ended where it isn't
//! started.
ghost use Rattle.std.specs.Prelude.{◌≡◌, IfOk, ◌≤◌, [], IfErr, IfNone, vec_len, vec_capacity};
ghost use Rattle.lrc_code.specs.Answers.{IsAnswer};
ghost use Rattle.farm_lanes.specs.LaneEnds.{IsUnusedPut, IsUnusedTake};
ghost use Rattle.farm_threads.specs.Jobs.{HasWorked, HasStopped};
ghost use Rattle.farm_threads.specs.Threads.{WorkersJoined, ends_of};

use crate::given::WorkerEnds;
use crate::jobs::Job;
use crate::pause::Pause;
use crate::replies::Reply;
use crate::shared::{Shared, start_thread};
use bumpalo::Bump;
use farm_lanes::{EndedPut, Item, PutEnd, TakeEnd};
use lrc_code::{Outcome, Request};
use lrc_plan::solve;
use std::alloc::{AllocError, Global};
use std::snapshot::Snapshot;
use std::sync::Wait;
use std::sync::atomic::Ordering;
use std::thread::{Promise, PromisedHandle, Scope, Threads};

/// A put end may put fewer items than this.
const MOST_PUTS: u64 = 4_294_967_295;

/// The memory that a worker takes and gives back before its first job. The C library keeps it for the thread's answers, each of which else
/// has it ask the system for a few pages.
const ROOM: usize = 4_194_304;

/// What a worker gives back: its ends, the one that puts ended.
#[derive(Drop)]
pub struct Worked<'a> {
    pub jobs: TakeEnd<Job<'a>>,
    pub replies: EndedPut<Reply<'a>>,
}

/// The request's answer, with an arena of its own for whatever memory a plan asks for, which ends here.
fn answer_in_arena(alloc: Global, request: &Request) -> Result<Outcome, AllocError>
    ensures { IfOk result (IsAnswer request.now) }
{
    let arena = Bump::new(alloc);
    solve(alloc, &arena, request)
}

/// The reply to the request of a slot and a number.
pub fn reply_to<'a, P: Pause>(
    alloc: Global,
    slot: usize,
    number: u64,
    request: &'a Request,
    pause: &P,
) -> Reply<'a>
    ensures { (result.rack ≡ slot) × (result.number ≡ number) × (result.request ≡ request.now) }
{
    pause.before(slot, number);
    let reply = match answer_in_arena(alloc, request) {
        Ok(outcome) => Reply::done(slot, number, request, outcome),
        Err(_) => Reply::starved(slot, number, request),
    };
    pause.after(slot, number);
    reply
}

/// Takes jobs until one says to stop, or until the reply end has no room for another put; puts a reply for each that
/// asks for one, in the order in which they were taken, and then its end mark. End marks that it takes are passed
/// over. If memory for an answer is refused, the reply says so.
pub fn work<'a, R: Wait, P: Pause>(
    rt: &R,
    alloc: Global,
    mut jobs: TakeEnd<Job<'a>>,
    mut replies: PutEnd<Reply<'a>>,
    pause: &P,
) -> Worked<'a>
    requires unused { IsUnusedTake jobs × IsUnusedPut replies }
    ensures worked { HasWorked jobs.entry replies.entry result.jobs result.replies }
    ensures stopped { HasStopped result.jobs.taken result.replies.put }
{
    for _ in rt.forever() {
        if replies.puts() >= MOST_PUTS {
            break;
        }
        match jobs.take(rt) {
            Item::Value {
                value: Job::Solve {
                    rack: slot,
                    number,
                    request,
                },
                ..
            } => replies.put(rt, reply_to(alloc, slot, number, request, pause)),
            Item::Value {
                value: Job::Stop,
                ..
            } => break,
            Item::End { .. } => {}
        }
    }
    Worked {
        jobs,
        replies: replies.end(rt),
    }
}

/// Takes nothing and puts the end mark: what a worker does if no thread was made for it.
fn idle<'a, R: Wait>(rt: &R, jobs: TakeEnd<Job<'a>>, replies: PutEnd<Reply<'a>>) -> Worked<'a>
    requires unused { IsUnusedTake jobs × IsUnusedPut replies }
    ensures { HasWorked jobs.entry replies.entry result.jobs result.replies }
{
    Worked {
        jobs,
        replies: replies.end(rt),
    }
}

/// The ends that a worker was given.
#[derive(Drop)]
pub struct WorkOf<'a>(pub Snapshot<WorkerEnds<'a>>);

impl<'a> Promise<Worked<'a>> for WorkOf<'a> {
    ghost use Rattle.farm_threads.specs.Jobs.{HasWorked};

    ghost kept_by = { λ p w. HasWorked p.0.value.jobs p.0.value.replies w.jobs w.replies };
}

/// A worker that was started, to be joined.
pub type WorkerHandle<'a> = PromisedHandle<Worked<'a>, WorkOf<'a>>;

/// What the worker of this number does: it works, unless it is the one that no thread was made for.
fn work_with<'a, R: Wait, P: Pause>(
    shared: &Shared<R, P>,
    number: usize,
    ends: WorkerEnds<'a>,
) -> Worked<'a>
    ensures { HasWorked ends.entry.jobs ends.entry.replies result.jobs result.replies }
{
    let WorkerEnds { jobs, replies } = ends;
    if shared.refused.worker.load(Ordering::SeqCst) == number {
        idle(shared.rt, jobs, replies)
    } else {
        // Without that memory it works as well.
        drop(Vec::<u8>::with_capacity(shared.alloc, ROOM));
        work(shared.rt, shared.alloc, jobs, replies, shared.pause)
    }
}

/// Starts a worker. Where no thread can be made it ends here at once, without work.
fn start_worker<'s, 'a: 's, E, R: Threads + Wait + Sync, P: Pause>(
    shared: &'s Shared<'s, R, P>,
    scope: &Scope<'s, E>,
    number: usize,
    ends: WorkerEnds<'a>,
) -> Result<WorkerHandle<'a>, Worked<'a>>
    ensures started { IfOk result (λ h. h.promise.0.value ≡ ends.entry) }
    ensures ended { IfErr result (λ w. HasWorked ends.entry.jobs ends.entry.replies w.jobs w.replies) }
{
    let promise = WorkOf(Snapshot::of(&ends));
    let body = move || -> Worked
        ensures { HasWorked ends.entry.jobs ends.entry.replies result.jobs result.replies }
    { work_with(shared, number, ends) };
    match start_thread(scope, promise, body) {
        Ok(handle) => Ok(handle),
        Err(back) => {
            shared.refused.worker.store(number, Ordering::SeqCst);
            Err((back.value)())
        }
    }
}

/// Starts a worker for each pair of ends, in order. After a refusal no further one is started: the ends of the others are ended here,
/// and the take end of the last of them is given back.
pub fn start_workers<'s, 'a: 's, E, R: Threads + Wait + Sync, P: Pause>(
    shared: &'s Shared<'s, R, P>,
    scope: &Scope<'s, E>,
    ends: Vec<WorkerEnds<'a>>,
    handles: &mut Vec<WorkerHandle<'a>>,
) -> Option<TakeEnd<Job<'a>>>
    requires empty { handles.old.items ≡ [] }
    requires room { vec_len ends ≤ vec_capacity handles.old }
    ensures all { IfNone result (ends_of handles.new.items ≡ ends.entry.items) }
    ensures capacity { vec_capacity handles.new ≡ vec_capacity handles.old }
    ensures len { vec_len handles.new ≤ vec_len ends.entry }
{
    let mut left = None;
    for end in ends {
        if left.is_none() {
            match start_worker(shared, scope, handles.len(), end) {
                Ok(handle) => handles.push_reserved(handle),
                Err(ended) => left = Some(ended.jobs),
            }
        } else {
            let WorkerEnds { jobs, replies } = end;
            left = Some(idle(shared.rt, jobs, replies).jobs);
        }
    }
    left
}

/// Joins the workers, and puts their ends in order.
pub fn join_workers<'a, R: Threads>(
    rt: &R,
    handles: Vec<WorkerHandle<'a>>,
    job_ends: &mut Vec<TakeEnd<Job<'a>>>,
    reply_ends: &mut Vec<EndedPut<Reply<'a>>>,
)
    requires empty { (job_ends.old.items ≡ []) × (reply_ends.old.items ≡ []) }
    requires room { (vec_len handles ≤ vec_capacity job_ends.old) × (vec_len handles ≤ vec_capacity reply_ends.old) }
    ensures { WorkersJoined handles.entry.items job_ends.new.items reply_ends.new.items }
{
    for handle in handles {
        let Worked { jobs, replies } = handle.join(rt);
        job_ends.push_reserved(jobs);
        reply_ends.push_reserved(replies);
    }
}

/// Takes the mark of an end where no worker does.
pub fn take_mark<'a, R: Wait>(rt: &R, taker: &mut Option<TakeEnd<Job<'a>>>) {
    if let Some(end) = taker.as_mut() {
        let _mark = end.take(rt);
    }
}

/// Ends a worker's reply end and takes its mark. The end that the worker was to take by is given back.
pub fn end_worker<'a, R: Wait>(
    rt: &R,
    ends: WorkerEnds<'a>,
    desk: &mut TakeEnd<Reply<'a>>,
) -> TakeEnd<Job<'a>> {
    let WorkerEnds { jobs, replies } = ends;
    let _ended = replies.end(rt);
    let _mark = desk.take(rt);
    jobs
}
