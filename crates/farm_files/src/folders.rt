//! Serving a folder of the system into another.
ghost use Rattle.std.specs.Prelude.{◌≡◌, ◌+◌, ◌<◌, ◌≤◌, ◌^◌, IfErr, IfOk};
ghost use Rattle.farm_files.specs.Faults.{CountsServing};
ghost use Rattle.farm_reading.specs.Limits.{all_survivors};
ghost use Rattle.farm_shelves.specs.Folder.{folder_failed, folder_path};
ghost use Rattle.farm_shelves.specs.ReadAhead.{read_ahead_failed, read_ahead_path};

use crate::serving::{Served, serve};
use farm_core::{NoPause, Settings};
use farm_reading::ServeFault;
use farm_shelves::{FolderShelf, ReadAheadShelf};
use std::alloc::{AllocError, Global};
use std::sync::Wait;
use std::thread::Threads;

/// Two folders of the system: that of the lists and fragments, which is read ahead in threads, and that of the reports and rebuilt
/// fragments.
pub struct Folders {
    pub input: ReadAheadShelf,
    pub output: FolderShelf<HostRuntime>,
}

impl Drop for Folders {
    fn drop(self) {
        let Folders {
            input: _,
            output: _,
        } = self;
    }
}

impl Folders {
    /// The folders at the paths of the input and of the output. Touches no device.
    pub fn open(
        system: &HostRuntime,
        alloc: Global,
        input: &str,
        output: &str,
    ) -> Result<Folders, AllocError>
        ensures input { IfOk result (λ f. (read_ahead_path f.input ≡ input.now) × (read_ahead_failed f.input ≡ 0)) }
        ensures output { IfOk result (λ f. (folder_path f.output ≡ output.now) × (folder_failed f.output ≡ 0)) }
    {
        Ok(Folders {
            input: ReadAheadShelf::open(system, alloc, input)?,
            output: FolderShelf::open(system, alloc, output)?,
        })
    }

    /// Serves the lists of the one by files in the other, by `serve` without a pause. The threads are those of `rt`. A folder shows no
    /// files in contracts, so these say which of the two is read and which is written by their devices' failures alone.
    pub fn serve<R: Threads + Wait + Sync>(
        &mut self,
        rt: &R,
        alloc: Global,
        settings: Settings,
    ) -> Result<Served, ServeFault>
        requires input_room { read_ahead_failed self.old.input < 2 ^ 62 }
        requires output_room { folder_failed self.old.output < 2 ^ 62 }
        ensures calm { IfOk result (λ served. folder_failed self.new.output ≡ folder_failed self.old.output) }
        ensures reads { (read_ahead_failed self.old.input ≤ read_ahead_failed self.new.input)
            × (read_ahead_failed self.new.input ≤ read_ahead_failed self.old.input + all_survivors) }
        ensures failures { IfErr result (λ f. CountsServing f (read_ahead_failed self.old.input) (read_ahead_failed self.new.input)
            (folder_failed self.old.output) (folder_failed self.new.output)) }
    {
        let Folders { input, output } = self;
        serve(rt, alloc, input, output, settings, &NoPause)
    }
}

/// Serves the lists of one folder by files in another: opens the `Folders` at the two paths, and serves them. It has no clause of its own,
/// since nothing is known afterwards of folders that are closed.
///
/// ```
/// let served = serve_folders(&rt, &system, alloc, "in", "out", Settings::new(4, 16)?)?;
/// ```
pub fn serve_folders<R: Threads + Wait + Sync>(
    rt: &R,
    system: &HostRuntime,
    alloc: Global,
    input: &str,
    output: &str,
    settings: Settings,
) -> Result<Served, ServeFault> {
    let mut folders = Folders::open(system, alloc, input, output)?;
    folders.serve(rt, alloc, settings)
}
