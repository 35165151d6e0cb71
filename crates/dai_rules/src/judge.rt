//! The judge: it goes over all rules of sorts and never stops at a fault.
ghost use Rattle.std.specs.Prelude.{◌≡◌, ℕ, ◌-◌, ◌∷◌, [], ◌++◌, ◌||◌, List, length, find, OnOk, IfOk};
ghost use Rattle.std.specs.Option.{option_copied};
ghost use Rattle.std.specs.List.{list_any};
ghost use Rattle.dai_syntax.specs.declared.tree.Binder.{Binder};
ghost use Rattle.dai_rules.specs.Names.{is_declared_by as declared_by, is_named as named, with_inside, kind_in, type_of as type_of_binder};
ghost use Rattle.dai_rules.specs.Rules.{is_declared_before as declared_before};
ghost use Rattle.dai_rules.specs.Sites.{declared_at, local_at, counted_at, type_at};
ghost use Rattle.dai_rules.specs.Classes.{fault_if};
ghost use Rattle.dai_rules.specs.Kinds.{kind_value};
ghost use Rattle.dai_rules.specs.Tables.{AreNames};
ghost use Rattle.dai_rules.specs.Views.{context_of, view_of, seen, noted, IsFresh, Introduces};

use crate::first::{Fault, note_if};
use crate::globals::{Globals, Kind, add_name, has_name};
use crate::variables::Naming;
use dai_base::Spent;
use dai_syntax::{Arg, Binder, Name};
use indexmap::IndexSet;
use std::alloc::Global;

/// What a formula is for. A condition or right side is a value, in which the variables of these arguments of a
/// target may stand.
#[derive(Clone, Copy)]
pub enum Role<'a> {
    Axiom,
    Invariant,
    Requirement,
    Value(&'a [Arg]),
}

/// Where a quantifier stands: under an even number of negations, inside a quantifier that is universal in force,
/// under `<->`. The left side of an implication counts as one negation.
#[derive(Clone, Copy)]
pub struct Force {
    pub even: bool,
    pub inside_universal: bool,
    pub under_equivalence: bool,
}

/// What an occurrence says of variables: one has a type, or two are compared.
#[derive(Clone, Copy)]
pub enum Use<'a> {
    Typed { variable: usize, sort: &'a Name },
    Linked { left: usize, right: usize },
}

/// A comparison by order with a variable: the place of its left side, and the variable.
#[derive(Clone, Copy)]
pub struct Ordering {
    pub at: u32,
    pub variable: usize,
}

/// The judge of one file, at one of its declarations.
#[derive(Drop)]
pub struct Judge<'a> {
    pub alloc: Global,
    pub globals: &'a Globals<'a>,
    pub here: usize,
    /// The parameters and locals in scope.
    pub inside: Vec<&'a Binder>,
    /// The names of all parameters and locals so far.
    pub locals: IndexSet<Vec<u8>>,
    pub naming: Naming<'a>,
    pub uses: Vec<Use<'a>>,
    pub orderings: Vec<Ordering>,
    /// The places of the quantifiers, and of the variables, that are existential in force.
    pub existentials: Vec<u32>,
    pub witnesses: Vec<u32>,
    pub first: Option<Fault>,
}

impl<'a> Judge<'a> {
    /// A judge that has seen nothing.
    pub fn new(alloc: Global, globals: &'a Globals<'a>) -> Judge<'a>
        ensures { IsFresh globals.now result }
    {
        Judge {
            alloc,
            globals,
            here: 0,
            inside: Vec::new(alloc),
            locals: IndexSet::new(alloc),
            naming: Naming::new(alloc),
            uses: Vec::new(alloc),
            orderings: Vec::new(alloc),
            existentials: Vec::new(alloc),
            witnesses: Vec::new(alloc),
            first: None,
        }
    }

    /// Notes a fault where a rule is broken.
    pub fn note_if(&mut self, broken: bool, number: u8, at: u32)
        ensures { view_of self.new ≡ noted (view_of self.old) (fault_if broken number at) }
    {
        note_if(&mut self.first, broken, number, at);
    }

    /// The parameter or local of this name in scope.
    pub fn local(&self, name: &Name) -> Option<&'a Binder>
        ensures { option_copied result ≡ find (named name.now.text) (context_of self.now).inside }
    {
        for binder in &self.inside {
            if is_named(binder, name) {
                return Some(binder);
            }
        }
        None
    }

    /// Whether the file declares the name up to the present declaration.
    pub fn is_declared_by(&self, name: &Name) -> bool
        ensures { result ≡ declared_by (context_of self.now) name.now.text }
    {
        match self.globals.place(name) {
            Some(place) => place <= self.here,
            None => false,
        }
    }

    /// What the name stands for.
    pub fn kind(&self, name: &Name) -> Kind<'a>
        ensures { kind_value result ≡ kind_in (context_of self.now) name.now.text }
    {
        match self.local(name) {
            Some(binder) => {
                if self.is_declared_by(name) {
                    self.globals.kind(name)
                } else {
                    Kind::Local(type_of(binder))
                }
            }
            None => self.globals.kind(name),
        }
    }

    /// Whether an earlier declaration has the name.
    fn is_declared_before(&self, name: &Name) -> bool
        ensures { result ≡ declared_before (context_of self.now) name.now.text }
    {
        match self.globals.place(name) {
            Some(place) => place < self.here,
            None => false,
        }
    }

    /// The name of a declaration.
    pub fn declared(&mut self, name: &Name)
        ensures { (locals : List (List ℕ)) → AreNames locals self.old.locals.keys → view_of self.new ≡ seen (view_of self.old) (declared_at (context_of self.old) locals name.now ∷ []) }
    {
        let taken = self.is_declared_before(name) || has_name(&self.locals, name);
        self.note_if(taken, 21, name.at);
    }

    /// One thing of a kind of which so many may come.
    pub fn counted(&mut self, left: usize, at: u32)
        ensures { view_of self.new ≡ seen (view_of self.old) (counted_at left at ∷ []) }
    {
        self.note_if(left == 0, 42, at);
    }

    /// A name in a type's place.
    pub fn sort(&mut self, name: &Name)
        ensures { view_of self.new ≡ seen (view_of self.old) (type_at (context_of self.old).declarations name.now ∷ []) }
    {
        let unknown = self.globals.type_order(name).is_none();
        self.note_if(unknown, 22, name.at);
    }

    /// The name of a parameter or local.
    fn named(&mut self, name: &Name)
        ensures { view_of self.new ≡ seen (view_of self.old) (local_at (context_of self.old) name.now ∷ []) }
    {
        let taken = self.is_taken(name);
        self.note_if(taken, 21, name.at);
    }

    /// Whether the file declares the name up to here, or a parameter or local in scope has it.
    fn is_taken(&self, name: &Name) -> bool
        ensures { result ≡ (declared_by (context_of self.now) name.now.text || list_any (named name.now.text) (context_of self.now).inside) }
    {
        if self.is_declared_by(name) {
            true
        } else {
            self.local(name).is_some()
        }
    }

    /// How many parameters and locals are in scope.
    pub fn depth(&self) -> usize
        ensures { result ≡ length (context_of self.now).inside }
    {
        self.inside.len()
    }

    /// Behind a block: only so many parameters and locals are in scope.
    pub fn leave_block(&mut self, outside: usize)
        ensures view { (outer own : List Binder) → (context_of self.old).inside ≡ outer ++ own → outside ≡ length outer → view_of self.new ≡ record (view_of self.old) { context = with_inside (context_of self.old) outer } }
        ensures keys { self.new.locals.keys ≡ self.old.locals.keys }
    {
        self.inside.truncate(outside);
    }

    /// Parameters or locals, of which so many may come. They stay in scope.
    /// It answers how many more may come.
    pub fn introduce(&mut self, room: usize, binders: &'a [Binder]) -> Result<usize, Spent>
        ensures introduced { OnOk result (Introduces room binders.now self.old self.new) }
        ensures left { IfOk result (λ left. left ≡ room - length binders.now) }
    {
        let mut left = room;
        for binder in binders {
            self.introduce_one(left, binder)?;
            left = left.saturating_sub(1);
        }
        Ok(left)
    }

    fn introduce_one(&mut self, room: usize, binder: &'a Binder) -> Result<(), Spent>
        ensures { OnOk result (Introduces room (binder.now ∷ []) self.old self.new) }
    {
        self.named(&binder.name);
        self.counted(room, binder.name.at);
        self.sort(type_of(binder));
        add_name(self.alloc, &mut self.locals, &binder.name)?;
        self.inside.push(binder)?;
        Ok(())
    }
}

/// Whether the parameter or local has the name.
pub fn is_named(binder: &Binder, name: &Name) -> bool
    ensures { result ≡ named name.now.text binder.now }
{
    name.text.as_bytes() == binder.name.text.as_bytes()
}

/// The type of a parameter, a local or an argument. One that has none, which no text has, stands for its own.
pub fn type_of(binder: &Binder) -> &Name
    ensures { result.now ≡ type_of_binder binder.now }
{
    match &binder.sort {
        Some(sort) => sort,
        None => &binder.name,
    }
}
