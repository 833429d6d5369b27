ghost use Rattle.cj_watch.specs.Laws.{KeepsLatest, TellsAll};

/// The laws of a log of numbered events: it keeps the last ones, as many as fit its window; and
/// `since` answers the events of the whole list after a version, or that some were dropped.
pub fn watch_laws()
    ensures keeps_latest { KeepsLatest }
    ensures tells_all { TellsAll }
{}
