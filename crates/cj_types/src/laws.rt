ghost use Rattle.cj_types.specs.Apart.{AreApart};

/// No two uids have the same text.
pub fn uid_laws()
    ensures { AreApart }
{}
