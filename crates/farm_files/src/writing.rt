//! Writing the files.
ghost use Rattle.std.specs.Prelude.{◌≡◌, ◌<◌, ◌^◌, IfErr, OnOk, map, option_map};
ghost use Rattle.farm_shelves.specs.Files.{CountsFailure, StopsWriting, put_all};
ghost use Rattle.farm_reports.specs.Named.{named};

use farm_reports::NamedFile;
use farm_shelves::{Shelf, ShelfFault};
use std::alloc::Global;

/// Writes the files in order, up to the first write that fails.
pub(crate) fn write_files<O: Shelf>(
    alloc: Global,
    output: &mut O,
    files: &[NamedFile<'_>],
) -> Result<(), ShelfFault>
    requires { O.failed output.old < 2 ^ 63 }
    ensures ok { OnOk result (O.files output.new ≡ option_map (λ old. put_all old (map named files.now)) (O.files output.old)) }
    ensures fault { IfErr result (λ f. StopsWriting f (map named files.now) (O.files output.old) (O.files output.new)) }
    ensures failure { CountsFailure result (O.failed output.old) (O.failed output.new) }
{
    for file in files {
        output.write(alloc, file.name.as_str(), file.bytes.as_slice())?;
    }
    Ok(())
}
