//! Protocols as trees. Types, relations, individuals, actions and variables are numbers.
ghost use Rattle.dai_logic.specs.Parts.{AreAccepted};

use dai_base::Text;

/// A term: a variable, an individual, a parameter or a local, by its number.
#[derive(Clone, Copy, Debug, PartialEq, Eq)]
pub enum Term {
    Var(u8),
    Ind(u8),
    Par(u8),
    Loc(u8),
}

/// A formula. The variables of one formula have distinct numbers.
#[derive(Drop)]
pub enum Formula {
    Truth(bool),
    Rel {
        rel: u8,
        args: Vec<Term>,
    },
    Same {
        left: Term,
        right: Term,
    },
    Less {
        left: Term,
        right: Term,
    },
    LessEq {
        left: Term,
        right: Term,
    },
    Not(Box<Formula>),
    All(Vec<Formula>),
    Any(Vec<Formula>),
    Implies(Box<Formula>, Box<Formula>),
    /// A chain of `<->`, grouped by association.
    Iff(Vec<Formula>),
    Forall {
        var: u8,
        sort: u8,
        body: Box<Formula>,
    },
    Exists {
        var: u8,
        sort: u8,
        body: Box<Formula>,
    },
}

/// A statement.
#[derive(Drop)]
pub enum Step {
    Require {
        body: Formula,
    },
    SetTable {
        rel: u8,
        args: Vec<Term>,
        body: Formula,
    },
    SetValue {
        ind: u8,
        to: Term,
    },
    Cond {
        cond: Formula,
        yes: Vec<Step>,
        no: Vec<Step>,
    },
}

/// The code of init or of an action, with the types of its parameters and locals.
#[derive(Drop)]
pub struct Block {
    pub params: Vec<u8>,
    pub locals: Vec<u8>,
    pub code: Vec<Step>,
}

/// A type, and whether it has a total order.
#[derive(Drop)]
pub struct SortInfo {
    pub name: Text,
    pub ordered: bool,
}

/// A relation, and the types of its arguments.
#[derive(Drop)]
pub struct RelInfo {
    pub name: Text,
    pub args: Vec<u8>,
}

/// An individual, and its type.
#[derive(Drop)]
pub struct IndInfo {
    pub name: Text,
    pub sort: u8,
}

/// An exported action.
#[derive(Drop)]
pub struct Action {
    pub name: Text,
    pub block: Block,
}

/// An invariant to be judged, with its label.
#[derive(Drop)]
pub struct Invariant {
    pub label: Text,
    pub body: Formula,
}

/// A protocol: its declarations in the order of the file. `actions` are the exported ones; axioms and
/// invariants are closed. Every protocol is well-sorted and in the profile.
#[derive(Drop)]
pub struct Protocol {
    pub sorts: Vec<SortInfo>,
    pub relations: Vec<RelInfo>,
    pub individuals: Vec<IndInfo>,
    pub axioms: Vec<Formula>,
    pub init: Block,
    pub actions: Vec<Action>,
    pub invariants: Vec<Invariant>,
    pub ghost accepted: { ∥ AreAccepted sorts.items relations.items individuals.items axioms.items init actions.items invariants.items ∥₁ },
}
