//! What is said and given where a run fails, and then fails again to take away what it has made, or goes on without.
ghost use Rattle.std.specs.Prelude.{◌≡◌};

use store_faults::{FileFault, say};
use store_files::Target;
use store_progress::Progress;

/// Of why a run failed, and why what it had made couldn't be taken away, says the one, and gives the other: that with the higher status,
/// and if they have the same the one that came last.
pub(crate) fn after_discarding(
    rt: &HostRuntime,
    progress: &Progress,
    fault: FileFault,
    discarded: Result<(), FileFault>,
) -> FileFault {
    match discarded {
        Ok(()) => fault,
        Err(other) => after_another(rt, Some(progress), Some(fault), other),
    }
}

/// Of what failed, and what failed before, if anything did, says the one in the same way, and gives the other. The line that shows how far
/// the command is goes for that, if there is one.
pub(crate) fn after_another(
    rt: &HostRuntime,
    progress: Option<&Progress>,
    before: Option<FileFault>,
    fault: FileFault,
) -> FileFault {
    let Some(before) = before else {
        return fault;
    };
    let (first, last) = if fault.status() < before.status() {
        (fault, before)
    } else {
        (before, fault)
    };
    if let Some(progress) = progress {
        progress.clear(rt);
    }
    let _ = say(rt, format!(in rt.alloc(); "rebuild-store: {first}"));
    drop(first);
    last
}

/// Says what failed, and notes it, where the work goes on without. A want of memory isn't said: it ends the work.
pub(crate) fn go_on_after(
    rt: &HostRuntime,
    target: &mut Target<'_>,
    fault: FileFault,
) -> Result<(), FileFault>
    ensures folder { target.new.folder ≡ target.old.folder }
    ensures sums { target.new.sums ≡ target.old.sums }
{
    if matches!(&fault, FileFault::OutOfMemory) {
        return Err(fault);
    }
    let _ = say(rt, format!(in rt.alloc(); "rebuild-store: {fault}"));
    drop(fault);
    target.has_failed = true;
    Ok(())
}
