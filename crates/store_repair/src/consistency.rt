//! Whether the survivors of a stripe belong together.
ghost use Rattle.std.specs.Prelude.{◌≡◌, ℕ, List, length, IfOk, None};
ghost use Rattle.lrc_code.specs.Sets.{is_in};
ghost use Rattle.lrc_plan.specs.Stripes.{AreWhole};
ghost use Rattle.store_repair.specs.Mended.{IsConsistency};
ghost use Rattle.stores.specs.Shown.{AreShown};

use crate::mending::{MendFault, Survivors, mend};
use std::alloc::Global;
use std::io;
use stores::{Fragment, NewFragment};

/// No file: a check of survivors writes nothing.
#[derive(Drop)]
struct NoFile;

impl NewFragment for NoFile {
    ghost shown = { λ _. None };

    fn append(&mut self, _bytes: &[u8]) -> io::Result<()> {
        Ok(())
    }
}

/// Whether some stripe of the code has the survivors' bytes.
pub fn are_consistent<F: Fragment>(
    alloc: Global,
    survivors: &Survivors<'_, F>,
) -> Result<bool, MendFault>
    requires { length survivors.now.fragments.now ≡ 16 }
    ensures { (at : List (List ℕ)) → AreShown F.shown survivors.now.fragments.now at
        → AreWhole survivors.now.code (is_in survivors.now.set) at survivors.now.length
        → IfOk result (IsConsistency survivors.now.code (is_in survivors.now.set) at survivors.now.length) }
{
    let files: &mut [NoFile] = &mut [];
    mend(alloc, survivors, &[], files)
}
