//! The tree of a file, as it is written: names are texts, and nothing is resolved.
use dai_base::Text;

/// A name, and the offset at which it stands.
#[derive(Drop)]
pub struct Name {
    pub text: Text,
    pub at: u32,
}

/// A variable, parameter or local, with its type where one is given.
#[derive(Drop)]
pub struct Binder {
    pub name: Name,
    pub sort: Option<Name>,
}

/// An argument of a relation, or a side of a comparison.
#[derive(Drop)]
pub enum Arg {
    Variable { name: Name, sort: Option<Name> },
    Symbol { name: Name },
}

/// A sign of comparison.
#[derive(Clone, Copy, Debug, PartialEq, Eq)]
pub enum Op {
    Equal,
    Unequal,
    Less,
    LessEqual,
}

/// A formula.
#[derive(Drop)]
pub enum Form {
    Truth {
        value: bool,
    },
    Atom {
        name: Name,
        args: Vec<Arg>,
    },
    Compare {
        left: Box<Arg>,
        op: Op,
        right: Box<Arg>,
    },
    Not {
        body: Box<Form>,
    },
    All {
        parts: Vec<Form>,
    },
    Any {
        parts: Vec<Form>,
    },
    Implies {
        left: Box<Form>,
        right: Box<Form>,
    },
    /// A chain of `<->`.
    Same {
        parts: Vec<Form>,
    },
    Quant {
        universal: bool,
        binders: Vec<Binder>,
        body: Box<Form>,
        at: u32,
    },
}

/// A statement.
#[derive(Drop)]
pub enum Stat {
    Require {
        body: Form,
    },
    Assign {
        name: Name,
        args: Vec<Arg>,
        body: Form,
    },
    Cond {
        cond: Form,
        yes: Vec<Stat>,
        no: Vec<Stat>,
    },
    Local {
        binders: Vec<Binder>,
        body: Vec<Stat>,
    },
}

/// A declaration. The `at` of an axiom or invariant is the place of the word that begins it.
#[derive(Drop)]
pub enum Decl {
    SortDecl {
        name: Name,
        ordered: bool,
    },
    RelDecl {
        name: Name,
        args: Vec<Binder>,
    },
    IndDecl {
        name: Name,
        sort: Name,
    },
    AxiomDecl {
        body: Form,
        at: u32,
    },
    InitDecl {
        body: Vec<Stat>,
    },
    ActionDecl {
        name: Name,
        params: Vec<Binder>,
        body: Vec<Stat>,
        exported: bool,
    },
    ExportDecl {
        name: Name,
    },
    InvDecl {
        label: Option<Name>,
        body: Form,
        at: u32,
    },
}

/// A file: its declarations in order.
#[derive(Drop)]
pub struct File {
    pub decls: Vec<Decl>,
}
