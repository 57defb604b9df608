//! Laws of topics, each the contract of a function that does nothing.
ghost use Rattle.topic_hub.specs.Laws.{EmptyHasACause, EndIsLast, LaterAreDue, WaitingHasACause};

/// Who subscribes after a load was published is due the loads that follow and the end, in order and once,
/// however they are pushed.
pub fn subscribers_are_due_what_follows()
    ensures later { LaterAreDue }
    ensures last { EndIsLast }
{}

/// `push` and `next` are proved for every fact of a caller's own. So where a subscriber's queue isn't full
/// at any moment of the call, `Waiting` would be a contradiction, and where it is never empty, `None`.
pub fn answers_have_causes()
    ensures waiting { WaitingHasACause }
    ensures none { EmptyHasACause }
{}
