// The order of the lines on gaps.
ghost use Rattle.std.specs.Prelude.{◌≡◌, IfErr, OnOk};
ghost use Rattle.cj_base.specs.declared.refusal.Refusal.TheVariants.{OutOfMemory};
ghost use Rattle.cj_status.specs.Order.{in_order};
ghost use Rattle.cj_program.specs.remarks.Order.{comes_before, gap_cmp};

use cj_history::Gap;
use cj_types::Refusal;
use std::cmp::Ordering;

// The order of two gaps: by the CronJob's namespace and name, then by its uid, then by time.
fn compare(a: &Gap, b: &Gap) -> Ordering
    ensures { result ≡ gap_cmp a.now b.now }
{
    let keys = a.cron.get().key.key().cmp(b.cron.get().key.key());
    let uids = a.cron.get().meta.uid.cmp(&b.cron.get().meta.uid);
    let times = a.time.cmp(&b.time);
    keys.then(uids).then(times)
}

/// Puts the gaps in order.
pub(crate) fn sort(gaps: &mut Vec<Gap>) -> Result<(), Refusal>
    ensures ok { OnOk result (gaps.new.items ≡ in_order comes_before gaps.old.items) }
    ensures err { IfErr result (λ e. e ≡ OutOfMemory) }
{
    gaps.sort_by(|a, b| compare(a, b))?;
    Ok(())
}
