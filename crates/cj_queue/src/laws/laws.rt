ghost use Rattle.cj_queue.specs.laws.Queues.{QueuesAreStingy};
ghost use Rattle.cj_queue.specs.laws.Rows.{RowsStayStingy};

/// The law of the line and its two sets, kept by each call. A key of the line is in it once, is
/// dirty, and is not being worked on. A dirty key is in the line, unless it is being worked on.
pub fn row_laws()
    ensures { RowsStayStingy }
{}

/// The law of the queue after any calls: `row_laws` hold of its line and its sets, and after `shut`
/// no key waits.
pub fn queue_laws()
    ensures { QueuesAreStingy }
{}
