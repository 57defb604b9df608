//! Laws of a main tree with the seats that it split off, each the contract of a function that does
//! nothing.
ghost use Rattle.tree_families.specs.Laws.{FamilyGrows, FamilyIsPaced, FamilyIsWhole, FamilyMayFinish, PartsLeaveLast, ShelvesOfFamily};

use scope_tree::Finish;

/// How a family begins, and that calls, splits and joins keep it one.
pub fn family_grows<P: Finish>()
    ensures { FamilyGrows P.ends }
{}

/// The main seat may finish.
pub fn family_may_finish<P: Finish>()
    ensures { FamilyMayFinish P.ends }
{}

/// The finished ledger is legal, complete and in order.
pub fn family_is_whole<P: Finish>()
    ensures { FamilyIsWhole P.ends }
{}

/// The finished ledger tells each stream's lease, and the next one's, before the stream begins, no
/// more streams open at once than the width, and streams that begin in their order.
pub fn family_is_paced<P: Finish>()
    ensures { FamilyIsPaced P.ends }
{}

/// No row stands on the shelves of two trees of a family.
pub fn shelves_of_family_are_apart<P: Finish>()
    ensures { ShelvesOfFamily P.ends }
{}

/// A tree that closed its root, and cancelled its one lease then, left last.
pub fn parts_leave_last<P: Finish>()
    ensures { PartsLeaveLast P.ends }
{}
