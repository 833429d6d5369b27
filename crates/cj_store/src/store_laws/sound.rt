ghost use Rattle.cj_store.specs.store_laws.Sound.{BeginsSound, StaysSound, PlansSound};

/// A content is sound where each object is at its own key, uids and versions of the objects are
/// within the counts, and no two objects have one uid. The first content is sound, and so is each
/// one after a write that was planned on a sound one. Each call's plan holds for the content that
/// it was made on.
pub fn sound_laws()
    ensures begins { BeginsSound }
    ensures stays { StaysSound }
    ensures planned { PlansSound }
{}
