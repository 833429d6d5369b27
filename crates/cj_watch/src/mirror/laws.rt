ghost use Rattle.cj_watch.specs.mirror.Laws.{MirrorsFollow};

/// The law of a mirror that follows a watch. It is fed the events that the watch answers, or reset
/// to the current Jobs where events were dropped. Then its Jobs are those after the writes up to
/// its version.
pub fn mirror_laws()
    ensures { MirrorsFollow }
{}
