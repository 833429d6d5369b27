// The fullest minutes.
ghost use Rattle.std.specs.Prelude.{◌≡◌, IfOk, OnOk, All, length};
ghost use Rattle.std.specs.List.Sorted.{IsPermutation};
ghost use Rattle.cj_status.specs.Order.{IsRising};
ghost use Rattle.cj_upcoming.specs.Minutes.{fuller_cmp, is_fuller, minutes, IsPeaks, IsWithin};

use crate::minute::Minute;
use crate::minutes::minutes_of;
use crate::start::Start;
use std::alloc::{AllocError, Global};
use std::cmp::Ordering;

// The greater count first, then the earlier.
fn compare(a: &Minute, b: &Minute) -> Ordering
    ensures { result ≡ fuller_cmp a.now b.now }
{
    let counts = b.count.cmp(&a.count);
    let places = a.first.cmp(&b.first);
    counts.then(places)
}

fn sort(minutes: &mut Vec<Minute>) -> Result<(), AllocError>
    ensures sorted { OnOk result (IsRising is_fuller minutes.new.items) }
    ensures same { IsPermutation minutes.old.items minutes.new.items }
    ensures long { length minutes.new.items ≡ length minutes.old.items }
{
    minutes.sort_by(|a, b| compare(a, b))?;
    Ok(())
}

/// The fullest minutes, at most `most`, the fullest first.
pub(crate) fn peaks(alloc: Global, starts: &[Start], most: usize) -> Result<Vec<Minute>, AllocError>
    ensures peaks { IfOk result (λ v. IsPeaks most (minutes starts.now) v.items) }
    ensures within { IfOk result (λ v. All (IsWithin starts.now) v.items) }
{
    let mut all = minutes_of(alloc, starts)?;
    sort(&mut all)?;
    all.truncate(most);
    Ok(all)
}
