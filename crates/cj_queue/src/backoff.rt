ghost use Rattle.std.specs.Prelude.{◌≡◌, ◌≤◌, ◌+◌, min};
ghost use Rattle.cj_queue.specs.Queue.{delay};

// The count after another failure. Failures are counted to 18, where the delay is the greatest.
pub(crate) fn one_more(failures: u64) -> u64
    ensures { result ≡ min (failures + 1) 18 }
{
    failures.min(17) + 1
}

// The milliseconds to wait after `failures` failures in a row.
#[tactic(auto, using(crate::proofs::Powers::small_power, crate::proofs::Powers::great_power))]
pub(crate) fn delay_after(failures: u64) -> u64
    ensures value { result ≡ delay failures }
    ensures bound { result ≤ 1000000 }
{
    if failures < 18 {
        5 << failures
    } else {
        1_000_000
    }
}
