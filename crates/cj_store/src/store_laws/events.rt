ghost use Rattle.cj_store.specs.store_laws.Events.{EventsWrite};

/// How the event of a write changes the content. The event's object takes its place, or leaves it
/// after a deletion; every other place is unchanged. The version grows by 1, and the count of uids
/// by 1 after a creation.
pub fn event_laws()
    ensures { EventsWrite }
{}
