// The zones that the words of a command and its folder give.
ghost use Rattle.std.specs.Prelude.{◌≡◌, IfOk, IfSome, MatchOption, Some, [], codes};
ghost use Rattle.cj_zone.specs.Table.{local_zone, zones_of};
ghost use Rattle.cj_zone.specs.Zones.{utc_zone};
ghost use Rattle.cj_answers.specs.Given.{AreGiven, IsNoneGiven, IsReadUnder, pair_words};
ghost use Rattle.cj_answers.specs.Outcome.{explained, outcome_of, refusal};

use crate::answer::Answer;
use cj_args::ZoneWords;
use cj_io::{Failure, GivenZones, Refused, ZoneFile, table_with};
use cj_zone::ZoneTable;
use std::alloc::Global;

// What a zone has to be.
const PAIR_WORDS: &str = "--zone: want NAME=RULE like Europe/Berlin=CET-1CEST,M3.5.0,M10.5.0/3\n";

/// UTC, the zones of the rules, then those of the files, with UTC as the local zone; none where a
/// rule is refused.
pub fn given_zones(
    alloc: Global,
    words: &ZoneWords<'_>,
    files: &[ZoneFile],
) -> Result<Option<ZoneTable>, Failure>
    ensures given { IfOk result (λ table. MatchOption table (IsNoneGiven words.now files.now)
        (λ t. AreGiven words.now files.now (zones_of t))) }
    ensures local { IfOk result (λ table. IfSome table (λ t.
        local_zone t ≡ Some (utc_zone (codes "UTC")))) }
{
    match table_with(alloc, words.rules.as_slice(), files) {
        Ok(table) => Ok(Some(table)),
        Err(Refused::Zone) => Ok(None),
        Err(Refused::Memory) => Err(Failure::Memory),
    }
}

/// The zones that an input with zones of its own is read under: those of the rules, with UTC as the
/// local zone, and the files; none where a rule is refused.
pub fn given_for<'a>(
    alloc: Global,
    words: &ZoneWords<'_>,
    files: &'a [ZoneFile],
) -> Result<Option<GivenZones<'a>>, Failure>
    ensures { IfOk result (λ given. MatchOption given (IsNoneGiven words.now [])
        (IsReadUnder words.now files.now)) }
{
    match given_zones(alloc, words, &[])? {
        Some(rules) => Ok(Some(GivenZones { rules, files })),
        None => Ok(None),
    }
}

/// What is answered where a rule is refused.
pub fn refused_pair(alloc: Global, explain: bool) -> Result<Answer, Failure>
    ensures { IfOk result (λ a. outcome_of a ≡ explained explain pair_words
        (refusal (codes "cronsim: zone\n"))) }
{
    let answer = Answer::refused(alloc, "cronsim: zone\n")?;
    Ok(answer.explained(explain, PAIR_WORDS)?)
}
