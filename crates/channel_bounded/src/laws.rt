//! Laws of the rule, each the contract of a function that does nothing.
ghost use Rattle.channel_bounded.specs.Causes.{FullHasACause, NoneHasACause};

/// `try_send` and `try_recv` are proved for every fact of a caller's own. So where the queue isn't
/// full at any moment of the call, Full would be a contradiction, and where it is never empty, None.
pub fn answers_have_causes()
    ensures full { FullHasACause }
    ensures none { NoneHasACause }
{}
