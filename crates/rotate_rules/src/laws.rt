//! Rotations that are written out.
ghost use Rattle.std.specs.Prelude.{ℕ, List};
ghost use Rattle.run_rules.specs.Rules.{KeepsRules};
ghost use Rattle.rotate_rules.specs.Pieces.{rotate_work};
ghost use Rattle.rotate_rules.specs.Rotation.{HoldsTwo};
ghost use Rattle.rotate_rules.specs.Worked.{failed_open, late, two_files};

/// Ledgers that keep the rules, and one that has three files open.
pub fn worked_ledgers()
    ensures two { HoldsTwo two_files }
    ensures failed { HoldsTwo failed_open }
    ensures late { ¬ (HoldsTwo late) }
    ensures rules { (n : ℕ) (path prefix : List ℕ) → KeepsRules (rotate_work path prefix n) two_files }
    ensures failed_rules { (n : ℕ) (path prefix : List ℕ) → KeepsRules (rotate_work path prefix n) failed_open }
{}
