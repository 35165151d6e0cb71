//! What answers a question.

use dai_logic::Structure;

/// A structure, arguments and choices from which the question's block leads to the structure after; without a block
/// the two structures are the same, and there are no arguments and choices.
#[derive(Drop)]
pub struct Found {
    pub before: Structure,
    pub args: Vec<u16>,
    pub choices: Vec<u16>,
    pub after: Structure,
}

/// The answer to a question: nothing is found, and it is enough for that to know the premises of these numbers; or
/// what is found.
#[derive(Drop)]
pub enum Answer {
    Holds(Vec<usize>),
    Broken(Found),
}
