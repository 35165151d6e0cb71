//! A law of the DIMACS form.
ghost use Rattle.std.specs.Prelude.{◌≡◌, ℕ, List};
ghost use Rattle.dai_trail.specs.Formula.{Formula};
ghost use Rattle.dai_dimacs.specs.Files.{IsTextOf};

/// Lines are those of one formula at most.
pub fn one_formula()
    ensures { (text : List (List ℕ)) (f g : Formula) → IsTextOf f text → IsTextOf g text → f ≡ g }
{}
