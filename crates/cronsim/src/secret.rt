// The secret of the hashes of this run of the program.
use cj_program::Secret;
use std::random::RandomSource;

/// A secret that the system's random numbers make. No answer depends on it; where the system has
/// none, it is one that everybody knows.
pub fn new_secret(rt: &HostRuntime) -> Secret {
    let mut bytes = [0; 16];
    let _ = rt.fill_bytes(&mut bytes);
    let words = u128::from_le_bytes(bytes);
    Secret {
        first: (words & 0xFFFF_FFFF_FFFF_FFFF) as u64,
        last: (words >> 64) as u64,
    }
}
