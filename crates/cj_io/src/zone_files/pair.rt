// A rule as it is given, NAME=RULE.
ghost use Rattle.std.specs.Prelude.{MatchOption};
ghost use Rattle.cj_io.specs.zone_files.Rules.{HasNoSign, IsPair};

/// The name and the rule, split at the first `=`; none where there is no `=`.
pub(crate) fn split_pair(pair: &str) -> Option<(&str, &str)>
    ensures { MatchOption result (HasNoSign pair.now) (λ p. IsPair pair.now p.0.now p.1.now) }
{
    pair.split_once('=')
}
