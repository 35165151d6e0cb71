ghost use Rattle.std.specs.Prelude.{◌≡◌};
ghost use Rattle.dai_circuit.specs.Circuits.{negation_of, opposite as opposite_literal, signed as signed_bit};

use dai_trail::Lit;

/// A truth value that is known, or that of a literal of the circuit's formula.
#[derive(Clone, Copy, Debug, PartialEq, Eq)]
pub enum Bit {
    /// The same in each assignment.
    Known(bool),
    /// True where the literal is.
    Is(Lit),
}

impl Bit {
    /// The bit that is true where this one is false.
    pub fn negation(self) -> Bit
        ensures { result ≡ negation_of self }
    {
        match self {
            Bit::Known(value) => Bit::Known(!value),
            Bit::Is(lit) => Bit::Is(opposite(lit)),
        }
    }

    /// The bit that is true where this one has a value.
    pub(crate) fn signed(self, value: bool) -> Bit
        ensures { result ≡ signed_bit value self }
    {
        if value { self } else { self.negation() }
    }
}

/// The literal of the same variable with the other sign.
pub(crate) fn opposite(lit: Lit) -> Lit
    ensures { result ≡ opposite_literal lit }
{
    Lit {
        var: lit.var,
        positive: !lit.positive,
    }
}
