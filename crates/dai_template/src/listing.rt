//! The canonical clauses of a space, in print order.
ghost use Rattle.std.specs.Prelude.{◌≡◌, ◌+◌, ◌≤◌, ◌<◌, length};

use crate::clause::Clause;
use crate::space::Space;
use dai_base::Spent;
use std::alloc::Global;

impl Space {
    ghost use Rattle.std.specs.Prelude.{IfOk, OnOk, [], map, slice_index_or};
    ghost use Rattle.dai_model.specs.Clause.{atoms_of};
    ghost use Rattle.dai_template.specs.Atoms.{counts_of};
    ghost use Rattle.dai_model.specs.Clause as Model;
    ghost use Rattle.dai_model.specs.Protocol.{Protocol};
    ghost use Rattle.dai_template.specs.Spaces.{IsSpace, IsSpaceOf, IsClauseOf, IsClauseOfSpace, clause_of};
    ghost use Rattle.dai_model.specs.Template.{Bounds};
    ghost use Rattle.dai_template.specs.Lists.{IsListOfAll, IsAdded, GoesOn, IsBegunWith, IsExtensible, HasFewLiterals};

    /// The canonical clauses of the space, each once, in print order.
    pub fn all(&self, alloc: Global) -> Result<Vec<Clause>, Spent>
        requires { IsSpace self.now }
        ensures { IfOk result (λ clauses. (P : Protocol) (B : Bounds) → IsSpaceOf P B self.now → IsListOfAll P B self.now clauses.items) }
    {
        let mut clauses = Vec::new(alloc);
        for shape in 0..self.shapes.len() as u32 {
            self.add_shape(shape, &mut clauses)?;
        }
        Ok(clauses)
    }

    /// Adds the canonical clauses over the shape.
    fn add_shape(&self, shape: u32, clauses: &mut Vec<Clause>) -> Result<(), Spent>
        requires space { IsSpace self.now }
        requires inside { shape < length self.now.shapes.items }
        ensures { OnOk result ((P : Protocol) (B : Bounds) → IsSpaceOf P B self.now → IsAdded P B self.now (HasFewLiterals self.now shape (B.literals + 1)) clauses.old.items clauses.new.items) }
    {
        for literals in 0..self.lits + 1 {
            self.extend(&Clause::empty(shape), 0, literals, clauses)?;
        }
        Ok(())
    }

    /// Adds the canonical clauses that begin with these literals and go on with so many more, over atoms from
    /// this number on.
    fn extend(
        &self,
        begun: &Clause,
        from: u8,
        left: u8,
        clauses: &mut Vec<Clause>,
    ) -> Result<(), Spent>
        requires { IsExtensible self.now begun.now from left }
        ensures { OnOk result ((P : Protocol) (B : Bounds) → IsBegunWith P B self.now begun.now from left → IsAdded P B self.now (GoesOn P (clause_of self.now begun.now) from left) clauses.old.items clauses.new.items) }
    {
        if left == 0 {
            return self.add_canonical(begun, clauses);
        }
        for atom in from..self.atom_count(begun.shape) {
            self.extend(&begun.with(2 * atom), atom + 1, left - 1, clauses)?;
            self.extend(&begun.with(2 * atom + 1), atom + 1, left - 1, clauses)?;
        }
        Ok(())
    }

    /// How many atoms the shape has.
    fn atom_count(&self, shape: u32) -> u8
        requires space { IsSpace self.now }
        requires inside { shape < length self.now.shapes.items }
        ensures is { (P : Protocol) (B : Bounds) → IsSpaceOf P B self.now → result ≡ length (atoms_of P (slice_index_or (map counts_of self.now.shapes.items) shape [])) }
        ensures few { result ≤ 64 }
    {
        self.shapes[shape as usize].atoms.len() as u8
    }

    /// Adds the clause where it is canonical.
    fn add_canonical(&self, clause: &Clause, clauses: &mut Vec<Clause>) -> Result<(), Spent>
        requires { IsClauseOfSpace self.now clause.now }
        ensures { OnOk result ((P : Protocol) (B : Bounds) → IsClauseOf P B self.now clause.now → IsAdded P B self.now (λ (c : Model.Clause). c ≡ clause_of self.now clause.now) clauses.old.items clauses.new.items) }
    {
        if self.smaller(clause).is_none() {
            clauses.push(clause.copy())?;
        }
        Ok(())
    }
}
