ghost use Rattle.cj_store.specs.store_laws.Answers.{CronAnswers, JobAnswers};

/// The answer of each accepted call. A create answers the new object, whose key was free. Any other
/// call answers the object at the key, changed as the call says; its uid and version are those that
/// the call asked for.
pub fn answer_laws()
    ensures crons { CronAnswers }
    ensures jobs { JobAnswers }
{}
