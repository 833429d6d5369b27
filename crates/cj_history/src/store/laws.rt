ghost use Rattle.cj_history.specs.store.Store.{StoreLaw};
ghost use Rattle.cj_history.specs.store.Numbers.{NumbersLaw, UidLaw};
ghost use Rattle.cj_history.specs.store.Events.{EventLaw};
ghost use Rattle.cj_history.specs.store.Mirrors.{MirrorLaw};
ghost use Rattle.cj_history.specs.store.Answers.{AnswerLaw};

/// After any history the store has as many versions as there were accepted writes, as many uids as
/// there were creations, and at each key of each kind the object that the last write about it left,
/// or none.
pub fn store_law()
    ensures { StoreLaw }
{}

/// The n-th write of any list of entries has version n, and no uid is given twice.
pub fn number_law()
    ensures versions { NumbersLaw }
    ensures uids { UidLaw }
{}

/// After any history a watch is told the writes after its version, in their order, or that some of
/// them are kept no more.
pub fn event_law()
    ensures { EventLaw }
{}

/// After any history the listing that lags has the Jobs that the first so many writes left, where
/// each accepted Feed counts.
pub fn mirror_law()
    ensures { MirrorLaw }
{}

/// After any history each call on the store, and each Feed, is answered as the writes before it and
/// its caller's own entries say; a list has just the objects that stand then, in the order of their
/// keys; and who may not make a call is not permitted.
pub fn answer_law()
    ensures { AnswerLaw }
{}
