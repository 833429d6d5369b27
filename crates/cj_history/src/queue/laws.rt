ghost use Rattle.cj_history.specs.queue.Answers.{AnswerLaw};
ghost use Rattle.cj_history.specs.queue.Calls.{OperationLaw, FitLaw};
ghost use Rattle.cj_history.specs.queue.Laws.{QueueLaw};

/// After any history the queue's line are the keys that were added and not taken since, without
/// those that are held, in the order in which they became queued; a key is held from its Take to
/// the end of its taker's sync; it waits for the earliest of its delayed adds since it last was
/// ready; and the failures, the greatest moment and the shutdown are those of the history.
pub fn queue_law()
    ensures { QueueLaw }
{}

/// After any history a Take of one who holds no key is answered the key that became queued before
/// all others, or that there is none, and whether the queue is shut; and each other call of the
/// queue as its caller's own entries say.
pub fn answer_law()
    ensures { AnswerLaw }
{}

/// The calls of the queue that the operations of a history stand for leave its queue; and those of
/// any operations leave what looking back over them says, where each take is of the first of the
/// line by one who holds no key, and each end by one who holds one.
pub fn call_law()
    ensures operations { OperationLaw }
    ensures fit { FitLaw }
{}
