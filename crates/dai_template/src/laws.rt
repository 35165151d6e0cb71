//! What the formula of a clause says: the function here does nothing, and its contract is the law.
ghost use Rattle.std.specs.Prelude.{◌↔◌};
ghost use Rattle.dai_model.specs.Protocol as Model;
ghost use Rattle.dai_model.specs.Structure as Structures;
ghost use Rattle.dai_model.specs.Clause as Clauses;
ghost use Rattle.dai_model.specs.Clause.{Meets};
ghost use Rattle.dai_model.specs.Template.{Bounds, IsTemplate};
ghost use Rattle.dai_model.specs.Value.{Satisfies};
ghost use Rattle.dai_template.specs.ClauseFormulas.{formula_of_clause};

/// The formula of a clause is true in exactly the structures that meet the clause.
pub fn formula_says_what_its_clause_says()
    ensures { (P : Model.Protocol) (B : Bounds) (c : Clauses.Clause) (s : Structures.Structure) → IsTemplate P B c → (Satisfies s (formula_of_clause P c) ↔ Meets P s c) }
{}
