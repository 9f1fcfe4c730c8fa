//! Serving a folder of lists.
ghost use Rattle.std.specs.Prelude.{◌≡◌, ℕ, List, ◌<◌, ◌+◌, ◌≤◌, ◌^◌, IfOk, IfErr, IfSome, length, map, option_map, sum_by};
ghost use Rattle.std.specs.List.{All};
ghost use Rattle.lrc_code.specs.declared.outcomes.Outcome.{Outcome};
ghost use Rattle.farm_orders.specs.Limits.{rack_limit};
ghost use Rattle.farm_reading.specs.Limits.{all_survivors, rack_answers};
ghost use Rattle.farm_lists.specs.declared.listing.Record.{Record};
ghost use Rattle.farm_shelves.specs.Files.{put_all};
ghost use Rattle.farm_reading.specs.Faults.{Explains};
ghost use Rattle.farm_files.specs.Faults.{CountsServing, LeavesOutput};
ghost use Rattle.farm_reading.specs.Reading.{Reads, all_failures};
ghost use Rattle.farm_files.specs.Serving.{Serves, written_files};

use crate::batches::{Answered, Batching, MOST_BATCH_BYTES, answer_lists};
use crate::writing::write_files;
use farm_core::{FeedAnswer, Pause, Settings};
use farm_reading::{ServeFault, read_lists};
use farm_reports::make_files;
use farm_shelves::Shelf;
use std::alloc::Global;
use std::sync::Wait;
use std::thread::Threads;

/// What was served: the number of racks, and of answers over all racks.
#[derive(Clone, Copy, Debug, PartialEq, Eq)]
pub struct Served {
    pub racks: usize,
    pub answers: u64,
}

/// Serves the lists of one shelf by files on another. A rack is fed by up to four lists: those of rack 0 are `rack0.csv`,
/// `rack0.feed1.csv` and so on, up to one that is absent, and then come those of rack 1. For each rack the rebuilt fragments of
/// the requests that a lawful merge of its feeds answers are written, in the order of their numbers, then its report. Other files
/// stay as they are. The farm has as many workers as the settings say, and the digests are made in as many threads at most.
/// All names and bytes are made before the first write, so a fault before it leaves the output untouched; a
/// fault in a write leaves the files before it whole and those after it untouched. A listed survivor that is absent,
/// hasn't exactly the listed length or isn't given by the device is left out of its request, and named in the report.
/// Requests are answered in batches, one after the other: a `Pause` that holds a request until one of a later batch begins waits in vain.
///
/// ```
/// let served = serve(&rt, alloc, &mut input, &mut output, Settings::new(4, 16)?, &NoPause)?;
/// assert_eq!(rt; (served.racks, served.answers), (1, 1));
/// ```
pub fn serve<R: Threads + Wait + Sync, I: Shelf, O: Shelf, P: Pause>(
    rt: &R,
    alloc: Global,
    input: &mut I,
    output: &mut O,
    settings: Settings,
    pause: &P,
) -> Result<Served, ServeFault>
    requires input_room { I.failed input.old < 2 ^ 62 }
    requires output_room { O.failed output.old < 2 ^ 62 }
    ensures input { I.files input.new ≡ I.files input.old }
    ensures served { IfOk result (λ served. (lists : List (List (List Record))) × (reads : List (List (List Reads)))
        × (answers : List (List (ℕ × Outcome)))
        × (I.failed input.new ≡ I.failed input.old + all_failures reads)
        × (served.racks ≡ length lists)
        × (served.answers ≡ sum_by (λ a. length a) answers)
        × IfSome (I.files input.old) (λ there. Serves there lists reads answers
        × (O.files output.new ≡ option_map (λ old. put_all old (written_files there lists reads answers)) (O.files output.old)))) }
    ensures calm { IfOk result (λ served. O.failed output.new ≡ O.failed output.old) }
    ensures reads { (I.failed input.old ≤ I.failed input.new) × (I.failed input.new ≤ I.failed input.old + all_survivors) }
    ensures why { IfErr result (λ f. IfSome (I.files input.old) (λ there. Explains f there)) }
    ensures output { IfErr result (λ f. LeavesOutput f (I.files input.old) (O.files output.old) (O.files output.new) (O.failed output.old)
        (O.failed output.new)) }
    ensures failures { IfErr result (λ f. CountsServing f (I.failed input.old) (I.failed input.new) (O.failed output.old)
        (O.failed output.new)) }
{
    let lists = read_lists(alloc, input)?;
    let batching = Batching {
        settings,
        pause,
        most: MOST_BATCH_BYTES,
    };
    let Answered { answers, requests } = answer_lists(
        rt,
        alloc,
        input,
        lists.as_slice(),
        &batching,
    )?;
    let files = make_files(
        rt,
        alloc,
        settings.workers(),
        requests.as_slice(),
        answers.as_slice(),
    )?;
    write_files(alloc, output, files.as_slice())?;
    Ok(Served {
        racks: lists.len(),
        answers: count_answers(answers.as_slice()),
    })
}

/// The number of answers over all racks.
fn count_answers(answers: &[Vec<FeedAnswer>]) -> u64
    requires racks { length answers.now ≤ rack_limit }
    requires few { All (λ a. length a.items ≤ rack_answers) answers.now }
    ensures { result ≡ sum_by (λ a. length a.items) answers.now }
{
    let mut count = 0;
    for rack in answers {
        count += rack.len() as u64;
    }
    count
}
