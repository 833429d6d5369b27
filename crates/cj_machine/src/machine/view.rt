// What a choice goes by, beside the sync itself.
use crate::machine::options::ControlOptions;
use crate::mirror::Mirror;
use cj_base::Text;
use cj_control::HeldBy;
use cj_zone::ZoneTable;

/// What a choice goes by, beside the sync itself.
#[derive(Drop)]
pub(crate) struct View<'a> {
    pub mirror: &'a Mirror,
    pub zones: &'a ZoneTable,
    /// The zones that were wanted once.
    pub known: &'a [Text],
    pub options: &'a ControlOptions,
    /// The moment by which Jobs are due, in seconds since 1970.
    pub now: u64,
    /// What this machine's clock said last.
    pub clock: u64,
    /// What keeps a held Job from running.
    pub by: HeldBy,
}

// The bytes of a text, mixed into a hash (FNV-1a).
fn mixed(hash: u64, text: &str) -> u64 {
    let mut hash = hash;
    for byte in text.as_bytes() {
        hash = (hash ^ u64::from(*byte)).wrapping_mul(1_099_511_628_211);
    }
    hash
}

/// How many seconds this replica waits before it syncs a CronJob that is due, so that not all do at
/// once; 0 for the only one, which has no name. Names that differ in one byte have ranks that don't
/// depend on one another.
pub(crate) fn rank(replica: &str, name: &str) -> u64 {
    if replica.is_empty() {
        return 0;
    }
    let hash = mixed(mixed(14_695_981_039_346_656_037, name), replica);
    // (the last steps of MurmurHash3, after which each bit of the hash rests on all)
    let hash = (hash ^ (hash >> 33)).wrapping_mul(18_397_679_294_719_823_053);
    let hash = (hash ^ (hash >> 33)).wrapping_mul(14_181_476_777_654_086_739);
    (hash ^ (hash >> 33)) % 3
}
