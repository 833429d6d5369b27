ghost use Rattle.std.specs.Prelude.{◌≡◌, ◌-◌, ◌≤◌, [], ◌∷◌, ◌++◌, length, take, drop, IfOk, IfErr};
ghost use Rattle.circular_buffer.specs.Buffer.{buffer, keep_last};
ghost use Rattle.cj_base.specs.declared.refusal.Refusal.TheVariants.{OutOfMemory};

use circular_buffer::HeapCircularBuffer;
use cj_types::{Refusal, TryCopy};
use std::alloc::Global;

/// Appends an item to a ring; a full ring drops its first item.
pub fn put_last<T: Drop>(ring: &mut HeapCircularBuffer<T>, item: T)
    ensures { ring.new ≡ buffer (keep_last ring.old.capacity (ring.old.items ++ item ∷ []))
        ring.old.capacity }
{
    let _ = ring.push_back(item);
}

/// Copies of the items from the place `start` to before the place `end`.
pub fn copy_range<T: TryCopy + Drop>(
    alloc: Global,
    ring: &HeapCircularBuffer<T>,
    start: usize,
    end: usize,
) -> Result<Vec<T>, Refusal>
    requires { (start ≤ end) × (end ≤ length ring.now.items) }
    ensures ok { IfOk result (λ v. v.items ≡ take (end - start) (drop start ring.now.items)) }
    ensures err { IfErr result (λ e. e ≡ OutOfMemory) }
{
    let mut copies = Vec::new(alloc);
    for i in start..end {
        let item = ring.get(i).unwrap();
        copies
            .push(item.try_copy(alloc)?)
            .map_err(|_| Refusal::OutOfMemory)?;
    }
    Ok(copies)
}
