//! The two-flag protocol as a worked example of the definitions.
ghost use Rattle.std.specs.Prelude.{[], ◌∷◌};
ghost use Rattle.dai_model.specs.WellSorted.{IsProtocol};
ghost use Rattle.dai_model.specs.Classes.{all_sizes};
ghost use Rattle.dai_model.specs.Inductive.{IsInductive, IsInGreatest};
ghost use Rattle.dai_model.specs.TwoFlags.{two_flags, two_literals, some_flag, not_both, first_down};

/// `a | b` is inductive, and so is in the greatest inductive set.
pub fn some_flag_is_inductive()
    ensures inductive { IsInductive all_sizes two_flags (some_flag ∷ []) }
    ensures greatest { IsInGreatest all_sizes two_flags two_literals some_flag }
{}

/// `~a | ~b` is inductive, and so is in the greatest inductive set.
pub fn not_both_is_inductive()
    ensures inductive { IsInductive all_sizes two_flags (not_both ∷ []) }
    ensures greatest { IsInGreatest all_sizes two_flags two_literals not_both }
{}

/// `~a` is not in the greatest inductive set: it holds at first, and the action breaks it.
pub fn first_down_is_not_in_greatest()
    ensures protocol { IsProtocol two_flags }
    ensures not_in_greatest { IsInGreatest all_sizes two_flags two_literals first_down → ⊥ }
{}
