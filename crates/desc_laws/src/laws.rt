//! The laws, each a function that does nothing: its contract is the law.
ghost use Rattle.desc_laws.specs.Laws.{IsAcceptedWithoutFlaws, IsRefusedForTheFirst, PlanIsWhatKeysSay};
ghost use Rattle.desc_laws.specs.Worked.{FlawsAreThere, FlawsFollow, PartsFollow, PartsHaveFlaws};

/// What may be wrong with descriptions, in order, and flaws that are there.
pub fn worked()
    ensures follow { FlawsFollow }
    ensures there { FlawsAreThere }
    ensures parts { PartsFollow }
    ensures flaws { PartsHaveFlaws }
{}

/// A description is refused exactly where it has a flaw, and then for the first.
pub fn is_refused_for_the_first()
    ensures { IsRefusedForTheFirst }
{}

/// A description is a plan exactly where it has no flaw.
pub fn is_accepted_without_flaws()
    ensures { IsAcceptedWithoutFlaws }
{}

/// Its plan is what its keys say: the numbers of the top, the name and path of each table, and all of each stream.
pub fn plan_is_what_keys_say()
    ensures { PlanIsWhatKeysSay }
{}
