ghost use Rattle.std.specs.Prelude.{◌≡◌, ◌≤◌, IfOk, IfSome, vec_len};

use crate::failure::Failure;
use std::alloc::Global;
use std::io::{ErrorKind, Read};

/// The most bytes that an input may have.
pub const MOST_BYTES: usize = 16_777_216;
/// The most reads after which an input must have ended.
pub const MOST_READS: u32 = 33_554_432;

/// Reads to the end, within the limits; an input past them counts as a failed read.
pub fn read_input<R: Read>(
    alloc: Global,
    input: &mut R,
    most_bytes: usize,
    most_reads: u32,
) -> Result<Vec<u8>, Failure>
    ensures all { IfOk result (λ v. IfSome (R.remaining input.old) (λ xs. v.items ≡ xs)) }
    ensures fits { IfOk result (λ v. vec_len v ≤ most_bytes) }
{
    let mut bytes = Vec::new(alloc);
    for _ in 0..most_reads {
        let mut chunk = [0u8; 4096];
        match input.read(&mut chunk) {
            Ok(0) => return Ok(bytes),
            Ok(count) => {
                if count > most_bytes - bytes.len() {
                    return Err(Failure::Device);
                }
                bytes.extend_from_slice(&chunk[..count])?;
            }
            Err(error) => {
                if error.kind() != ErrorKind::Interrupted {
                    return Err(Failure::Device);
                }
            }
        }
    }
    Err(Failure::Device)
}
