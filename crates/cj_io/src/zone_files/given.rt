use crate::zone_files::file::ZoneFile;
use cj_zone::ZoneTable;

/// The zones that are given for an input that may have zones of its own: those of rules, which come
/// before its own, and files for the names that are free behind them.
#[derive(Drop)]
pub struct GivenZones<'a> {
    /// UTC and the zones of the rules.
    pub rules: ZoneTable,
    /// Compiled zone files (RFC 8536).
    pub files: &'a [ZoneFile],
}
