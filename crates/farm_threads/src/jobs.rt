//! What a worker is to do.
use lrc_code::Request;

/// What a worker is to do: to solve a request, which the job lends, and reply under its slot and number; or to stop.
///
/// A slot is one number for a rack and a feed: `4 * rack + feed`. In `Job`, `Reply` and `Fed` the field `rack` has the slot where `run` or
/// `run_feeds` makes them; a caller of `work` and `Collector` puts the rack's number there, and gets it back.
#[derive(Drop)]
pub enum Job<'a> {
    Solve {
        /// The slot of the request's rack and feed.
        rack: usize,
        number: u64,
        request: &'a Request,
    },
    Stop,
}
