use dai_trail::cnf::Lit;

/// What a solver answers.
#[derive(Debug, Drop, PartialEq, Eq)]
pub enum Answer {
    /// A value for each variable, by its number.
    Model(Vec<bool>),
    /// No assignment meets the clauses.
    Unsat,
}

/// What a solver answers under assumptions.
#[derive(Debug, Drop, PartialEq, Eq)]
pub enum Outcome {
    /// A value for each variable, by its number.
    Model(Vec<bool>),
    /// No assignment meets the clauses and these of the assumptions.
    Unsat(Vec<Lit>),
}
