//! Laws of the rules of sorts.
ghost use Rattle.std.specs.Prelude.{◌≡◌, ℕ, List};
ghost use Rattle.dai_syntax.specs.Tree.{Declaration};
ghost use Rattle.dai_rules.specs.Faults.{IsFirstSortFault, IsFaultless};

/// A file has at most one first fault, and none where no rule is broken.
pub fn one_sort_fault()
    ensures one { (ds : List Declaration) (number at other place : ℕ) → IsFirstSortFault ds number at → IsFirstSortFault ds other place → (number ≡ other) × (at ≡ place) }
    ensures never_both { (ds : List Declaration) (number at : ℕ) → IsFirstSortFault ds number at → IsFaultless ds → ⊥ }
{}
