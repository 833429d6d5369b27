ghost use Rattle.cj_history.specs.queue.Rest.{RestLaw};

/// After any history no key is in the line and nobody holds one exactly where, by looking back, no
/// key is queued and none is held.
pub fn rest_law()
    ensures { RestLaw }
{}
