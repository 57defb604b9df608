//! Laws of the work of plans, each the contract of a function that does nothing.
ghost use Rattle.plan_work.specs.Laws.{FirstAreBelow, PlainPlansHaveOnePart};
ghost use Rattle.plan_work.specs.Worked.{AreWorks};

/// The work of a plan without groups and without a list: its outer stream has its tables, opens no
/// scope of its own, and gives the described streams, each of which sees all tables.
pub fn plain_plans()
    ensures { PlainPlansHaveOnePart }
{}

/// What a stream sees that is begun with the first dictionaries.
pub fn first_are_below()
    ensures { FirstAreBelow }
{}

/// The works of two plans that are written out: one has a group, the other a list.
pub fn worked()
    ensures { AreWorks }
{}
