//! Clauses by numbers.
ghost use Rattle.std.specs.Prelude.{◌≡◌, ◌++◌, ◌∷◌, [], ◌<◌};
ghost use Rattle.arrayvec.specs.ArrayVec.{array_vec_len};

use arrayvec::ArrayVec;

/// An atom of a shape. A variable is a type's number and its own number in that type, from 0.
#[derive(Drop)]
pub enum Atom {
    Tuple { rel: u8, vars: Vec<(u8, u8)> },
    IsInd { var: (u8, u8), ind: u8 },
}

/// How many variables each type has, and the atoms over them: for each relation its tuples of variables in
/// lexicographic order, then for each individual its equations.
#[derive(Drop)]
pub struct Shape {
    pub counts: Vec<u8>,
    pub atoms: Vec<Atom>,
}

/// A clause: the number of its shape, and its literals. A literal is twice the atom's number, plus 1 where it
/// is negated. Literals strictly increase and name no atom twice.
#[derive(Drop)]
pub struct Clause {
    pub shape: u32,
    pub lits: ArrayVec<u8, 8>,
}

impl Clause {
    /// The clause of the shape without literals.
    pub fn empty(shape: u32) -> Clause
        ensures shape { result.shape ≡ shape }
        ensures literals { result.lits.items ≡ [] }
    {
        Clause {
            shape,
            lits: ArrayVec::new(),
        }
    }

    /// A copy of the clause with one literal more at the end.
    pub fn with(&self, literal: u8) -> Clause
        requires { array_vec_len self.now.lits < 8 }
        ensures shape { result.shape ≡ self.now.shape }
        ensures literals { result.lits.items ≡ self.now.lits.items ++ literal ∷ [] }
    {
        let mut longer = self.copy();
        longer.lits.push(literal);
        longer
    }

    /// A copy of the clause.
    pub fn copy(&self) -> Clause
        ensures shape { result.shape ≡ self.now.shape }
        ensures literals { result.lits.items ≡ self.now.lits.items }
    {
        let mut lits = ArrayVec::new();
        // As many literals fit as the clause has, so nothing is left out.
        let _fits = lits.try_extend_from_slice(self.lits.as_slice());
        Clause {
            shape: self.shape,
            lits,
        }
    }
}
