//! The collector's thread: it puts the replies on the board until every worker's end has come.
ghost use Rattle.std.specs.Prelude.{◌≡◌, true, IfOk};
ghost use Rattle.farm_lanes.specs.LaneEnds.{IsUnusedTake};
ghost use Rattle.farm_threads.specs.Boards.{HoldsNothing};
ghost use Rattle.farm_threads.specs.Settled.{HasCleared};

use farm_lanes::{Item, TakeEnd};
use farm_threads::{Board, HandedIn, Pause, Reply, Shared, hand_in, start_thread};
use std::snapshot::Snapshot;
use std::sync::Wait;
use std::sync::atomic::Ordering;
use std::thread::{Promise, PromisedHandle, Scope};

/// A board, the end that its replies come from, and how many workers will end.
#[derive(Drop)]
pub(crate) struct Desk<'a> {
    pub board: Board<'a>,
    pub replies: TakeEnd<Reply<'a>>,
    pub workers: usize,
}

/// What the collector's thread gives back.
#[derive(Drop)]
pub(crate) struct Cleared<'a> {
    pub all: HandedIn<'a>,
    pub replies: TakeEnd<Reply<'a>>,
}

/// Puts the replies on the board until every worker's end has come.
fn clear<'a, R: Wait>(rt: &R, desk: Desk<'a>) -> Cleared<'a>
    requires empty { HoldsNothing desk.board.racks desk.board }
    requires unused { IsUnusedTake desk.replies }
    ensures { HasCleared desk.entry.board.racks desk.entry.replies result.all.board result.all.fault result.replies }
{
    let Desk {
        mut board,
        mut replies,
        workers,
    } = desk;
    let mut fault = None;
    let mut ended = 0;
    for _ in rt.forever() {
        if ended >= workers {
            break;
        }
        match replies.take(rt) {
            Item::Value { value, .. } => fault = hand_in(&mut board, fault, value),
            Item::End { .. } => ended += 1,
        }
    }
    Cleared {
        all: HandedIn { board, fault },
        replies,
    }
}

/// The desk that the collector's thread was given.
#[derive(Drop)]
pub(crate) struct ClearOf<'a>(pub Snapshot<Desk<'a>>);

impl<'a> Promise<Cleared<'a>> for ClearOf<'a> {
    ghost use Rattle.farm_threads.specs.Settled.{HasCleared};

    ghost kept_by = { λ p c. HasCleared p.0.value.board.racks p.0.value.replies c.all.board c.all.fault c.replies };
}

/// The collector that was started, to be joined.
pub(crate) type CollectorHandle<'a> = PromisedHandle<Cleared<'a>, ClearOf<'a>>;

/// What the collector's thread does. Where no thread was made for it, it waits for no worker and takes nothing.
fn clear_with<'a, R: Wait, P: Pause>(shared: &Shared<R, P>, desk: Desk<'a>) -> Cleared<'a>
    requires empty { HoldsNothing desk.board.racks desk.board }
    requires unused { IsUnusedTake desk.replies }
    ensures { HasCleared desk.entry.board.racks desk.entry.replies result.all.board result.all.fault result.replies }
{
    let Desk {
        board,
        replies,
        workers,
    } = desk;
    let workers = if shared.refused.collector.load(Ordering::SeqCst) {
        0
    } else {
        workers
    };
    clear(
        shared.rt,
        Desk {
            board,
            replies,
            workers,
        },
    )
}

/// Starts the collector's thread. Where no thread can be made, its desk is left as it was.
pub(crate) fn start_collector<'s, 'a: 's, E, R: Wait + Sync, P: Pause>(
    shared: &'s Shared<'s, R, P>,
    scope: &Scope<'s, E>,
    desk: Desk<'a>,
) -> Result<CollectorHandle<'a>, Cleared<'a>>
    requires empty { HoldsNothing desk.board.racks desk.board }
    requires unused { IsUnusedTake desk.replies }
    ensures { IfOk result (λ h. h.promise.0.value ≡ desk.entry) }
{
    let promise = ClearOf(Snapshot::of(&desk));
    let body = move || -> Cleared
        requires { HoldsNothing desk.board.racks desk.board × IsUnusedTake desk.replies }
        ensures { HasCleared desk.entry.board.racks desk.entry.replies result.all.board result.all.fault result.replies }
    { clear_with(shared, desk) };
    match start_thread(scope, promise, body) {
        Ok(handle) => Ok(handle),
        Err(back) => {
            shared.refused.collector.store(true, Ordering::SeqCst);
            Err((back.value)())
        }
    }
}
