//! The order in which the files of a stripe get their names.
ghost use Rattle.std.specs.Prelude.{OnOk};
ghost use Rattle.store_encoding.specs.Encoded.{AreThere, EncodesFile, contents_of, each_has};

use crate::encoding::descriptions::place_descriptions;
use crate::encoding::placing::{Made, place_fragments};
use crate::encoding::stripe_files::StripeFiles;
use folders::Folder;
use store_faults::FileFault;
use store_files::Target;
use store_progress::Progress;

/// Gives the fragments of a stripe, of so many bytes each, their names, and once these are on the disk writes its descriptions. What is
/// there with the same bytes stays; where something else has one of the fragments' names, none gets its own. Whenever that ends, each path
/// but temporary ones has what it had, or, if it had nothing and is one of the stripe's, all the bytes of its file; and if a description
/// has come, each fragment is there, and each crash leaves it there.
pub(crate) fn place_stripe<F: Folder>(
    rt: &HostRuntime,
    files: &mut F,
    target: &mut Target<'_>,
    progress: &Progress,
    names: &StripeFiles,
    length: usize,
    made: Vec<Made<F::New>>,
    text: &str,
) -> Result<(), FileFault>
    ensures whenever { EncodesFile target.old.folder.now names.now (contents_of made.items) text.now (F.calls files.old)
        (F.calls files.new) }
    ensures fragments { OnOk result (AreThere target.old.folder.now names.now.fragments.items (contents_of made.items)
        (F.calls files.new)) }
    ensures descriptions { OnOk result (AreThere target.old.folder.now names.now.descriptions.items
        (each_has names.now.descriptions.items text.now) (F.calls files.new)) }
{
    match place_fragments(
        rt,
        files,
        target,
        progress,
        names.fragments.as_slice(),
        length,
        made,
    ) {
        Ok(()) => place_descriptions(rt, files, target, names.descriptions.as_slice(), text),
        Err(fault) => Err(fault),
    }
}
