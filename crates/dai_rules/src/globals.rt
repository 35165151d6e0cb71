//! The names that a file declares, and those that it assigns.
ghost use Rattle.std.specs.Prelude.{◌≡◌, ℕ, ◌∷◌, [], ◌||◌, List, map, OnOk, IfOk, if◌then◌else◌};
ghost use Rattle.std.specs.Option.{option_map, option_copied, option_or};
ghost use Rattle.std.specs.List.{flat_map};
ghost use Rattle.dai_syntax.specs.Trees.{declaration_of, statement_of, statements_of};
ghost use Rattle.dai_rules.specs.Names.{same_text, is_among, declared_name as name_declared, declares, kind_of as kind_declared, declared_kind, first_place, first_declaration, order_of as order_declared, type_order as order_of_type, element_type};
ghost use Rattle.dai_rules.specs.Sites.{assigned_by, targets_of, targets_in, places_of};
ghost use Rattle.dai_rules.specs.Rules.{is_action as names_an_action, takes_others as others_taken, is_relation as relation_kind, is_individual as individual_kind, is_local as local_kind, is_neither as no_kind};
ghost use Rattle.dai_rules.specs.Tables.{texts_of, place_in, ArePlaces, AreNames, AddsNames, IsTable};
ghost use Rattle.dai_rules.specs.Kinds.{kind_value};
ghost use Rattle.std.proofs.Props.{props};

use dai_base::Spent;
use dai_syntax::{Arg, Binder, Decl, Name, Stat};
use indexmap::{IndexMap, IndexSet};
use std::alloc::Global;

/// What a name in a formula or in a target stands for: a relation with these arguments, an individual, a
/// parameter or local of this type, or none of these.
#[derive(Clone, Copy)]
pub enum Kind<'a> {
    Relation(&'a [Binder]),
    Individual(&'a Name),
    Local(&'a Name),
    Neither,
}

/// The declarations of a file by name, and the names that statements assign to. The first declaration of a name
/// counts.
#[derive(Drop)]
pub struct Globals<'a> {
    pub decls: &'a [Decl],
    pub places: IndexMap<Vec<u8>, usize>,
    pub assigned: IndexSet<Vec<u8>>,
    pub ghost table: { IsTable decls.now places.entries assigned.keys } by { Prim.hlevel props },
}

impl<'a> Globals<'a> {
    /// The names of these declarations.
    pub fn of(alloc: Global, decls: &'a [Decl]) -> Result<Globals<'a>, Spent>
        ensures { IfOk result (λ g. g.decls.now ≡ decls.now) }
    {
        Ok(Globals {
            decls,
            places: places(alloc, decls)?,
            assigned: assigned(alloc, decls)?,
        })
    }

    /// The place of the first declaration of the name among the declarations.
    pub fn place(&self, name: &Name) -> Option<usize>
        ensures { result ≡ first_place (map declaration_of self.now.decls.now) name.now.text }
    {
        self.places.get(name.text.as_bytes()).copied()
    }

    /// The first declaration of the name.
    fn first(&self, name: &Name) -> Option<&'a Decl>
        ensures { option_map declaration_of (option_copied result) ≡ first_declaration (map declaration_of self.now.decls.now) name.now.text }
    {
        self.decls.get(self.place(name)?)
    }

    /// What the first declaration of the name says that it is.
    pub fn kind(&self, name: &Name) -> Kind<'a>
        ensures { kind_value result ≡ declared_kind (map declaration_of self.now.decls.now) name.now.text }
    {
        match self.first(name) {
            Some(decl) => kind_of(decl),
            None => Kind::Neither,
        }
    }

    /// Whether the name is a type, and whether it is an ordered one.
    pub fn type_order(&self, name: &Name) -> Option<bool>
        ensures { result ≡ order_of_type (map declaration_of self.now.decls.now) name.now.text }
    {
        match self.first(name) {
            Some(decl) => order_of(decl),
            None => None,
        }
    }

    /// Whether the name is an action.
    pub fn is_action(&self, name: &Name) -> bool
        ensures { result ≡ names_an_action (map declaration_of self.now.decls.now) name.now.text }
    {
        match self.first(name) {
            Some(decl) => matches!(decl, Decl::ActionDecl { .. }),
            None => false,
        }
    }

    /// Whether some statement assigns to the name.
    pub fn is_assigned(&self, name: &Name) -> bool
        ensures { result ≡ is_among name.now.text (flat_map assigned_by (map declaration_of self.now.decls.now)) }
    {
        has_name(&self.assigned, name)
    }
}

/// Whether the set has the name.
pub fn has_name(names: &IndexSet<Vec<u8>>, name: &Name) -> bool
    ensures { result ≡ is_among name.now.text (texts_of names.now.keys) }
{
    names.contains(name.text.as_bytes())
}

/// What the declaration says that its name is.
fn kind_of(decl: &Decl) -> Kind<'_>
    ensures { kind_value result ≡ kind_declared (declaration_of decl.now) }
{
    match decl {
        Decl::RelDecl { args, .. } => Kind::Relation(args.as_slice()),
        Decl::IndDecl { sort, .. } => Kind::Individual(sort),
        Decl::SortDecl { .. } => Kind::Neither,
        Decl::AxiomDecl { .. } => Kind::Neither,
        Decl::InitDecl { .. } => Kind::Neither,
        Decl::ActionDecl { .. } => Kind::Neither,
        Decl::ExportDecl { .. } => Kind::Neither,
        Decl::InvDecl { .. } => Kind::Neither,
    }
}

/// Whether the declaration is a type, and whether it is an ordered one.
fn order_of(decl: &Decl) -> Option<bool>
    ensures { result ≡ order_declared (declaration_of decl.now) }
{
    match decl {
        Decl::SortDecl { ordered, .. } => Some(*ordered),
        Decl::RelDecl { .. } => None,
        Decl::IndDecl { .. } => None,
        Decl::AxiomDecl { .. } => None,
        Decl::InitDecl { .. } => None,
        Decl::ActionDecl { .. } => None,
        Decl::ExportDecl { .. } => None,
        Decl::InvDecl { .. } => None,
    }
}

/// The name that the declaration declares.
fn declared_name(decl: &Decl) -> Option<&Name>
    ensures { option_copied result ≡ name_declared (declaration_of decl.now) }
{
    match decl {
        Decl::SortDecl { name, .. } => Some(name),
        Decl::RelDecl { name, .. } => Some(name),
        Decl::IndDecl { name, .. } => Some(name),
        Decl::ActionDecl { name, .. } => Some(name),
        Decl::AxiomDecl { .. } => None,
        Decl::InitDecl { .. } => None,
        Decl::ExportDecl { .. } => None,
        Decl::InvDecl { .. } => None,
    }
}

/// The place of the first declaration of each name.
fn places(alloc: Global, decls: &[Decl]) -> Result<IndexMap<Vec<u8>, usize>, Spent>
    ensures { IfOk result (λ m. ArePlaces (map declaration_of decls.now) m.entries) }
{
    let mut places = IndexMap::new(alloc);
    for (place, decl) in decls.iter().enumerate() {
        add_place(alloc, &mut places, decl, place)?;
    }
    Ok(places)
}

/// Adds the place of the declaration, if its name has none.
fn add_place(
    alloc: Global,
    places: &mut IndexMap<Vec<u8>, usize>,
    decl: &Decl,
    place: usize,
) -> Result<(), Spent>
    ensures { OnOk result ((x : List ℕ) → place_in places.new.entries x ≡ option_or (place_in places.old.entries x) (if declares x (declaration_of decl.now) then Some place else None)) }
{
    match declared_name(decl) {
        Some(name) => add_name_place(alloc, places, name, place),
        None => Ok(()),
    }
}

/// Adds the place of a name, if it has none.
fn add_name_place(
    alloc: Global,
    places: &mut IndexMap<Vec<u8>, usize>,
    name: &Name,
    place: usize,
) -> Result<(), Spent>
    ensures { OnOk result ((x : List ℕ) → place_in places.new.entries x ≡ option_or (place_in places.old.entries x) (if same_text x name.now.text then Some place else None)) }
{
    if places.get(name.text.as_bytes()).is_none() {
        places.insert(Vec::from_slice(alloc, name.text.as_bytes())?, place)?;
    }
    Ok(())
}

/// The names that statements assign to.
fn assigned(alloc: Global, decls: &[Decl]) -> Result<IndexSet<Vec<u8>>, Spent>
    ensures { IfOk result (λ s. AreNames (flat_map assigned_by (map declaration_of decls.now)) s.keys) }
{
    let mut names = IndexSet::new(alloc);
    for decl in decls {
        add_assigned(alloc, &mut names, decl)?;
    }
    Ok(names)
}

/// Adds what the declaration assigns to.
fn add_assigned(alloc: Global, names: &mut IndexSet<Vec<u8>>, decl: &Decl) -> Result<(), Spent>
    ensures { OnOk result (AddsNames (assigned_by (declaration_of decl.now)) names.old.keys names.new.keys) }
{
    match decl {
        Decl::InitDecl { body } => add_targets(alloc, names, body),
        Decl::ActionDecl { body, .. } => add_targets(alloc, names, body),
        Decl::SortDecl { .. } => Ok(()),
        Decl::RelDecl { .. } => Ok(()),
        Decl::IndDecl { .. } => Ok(()),
        Decl::AxiomDecl { .. } => Ok(()),
        Decl::ExportDecl { .. } => Ok(()),
        Decl::InvDecl { .. } => Ok(()),
    }
}

/// Adds the targets of the statements.
#[cycle(add_targets)]
fn add_targets(alloc: Global, names: &mut IndexSet<Vec<u8>>, stats: &[Stat]) -> Result<(), Spent>
    ensures { OnOk result (AddsNames (targets_in (statements_of stats.now)) names.old.keys names.new.keys) }
{
    for stat in stats {
        add_targets_of(alloc, names, stat)?;
    }
    Ok(())
}

#[cycle(add_targets)]
fn add_targets_of(alloc: Global, names: &mut IndexSet<Vec<u8>>, stat: &Stat) -> Result<(), Spent>
    ensures { OnOk result (AddsNames (targets_of (statement_of stat.now)) names.old.keys names.new.keys) }
{
    match stat {
        Stat::Require { .. } => Ok(()),
        Stat::Assign { name, .. } => add_name(alloc, names, name),
        Stat::Cond { yes, no, .. } => {
            add_targets(alloc, names, yes)?;
            add_targets(alloc, names, no)
        }
        Stat::Local { body, .. } => add_targets(alloc, names, body),
    }
}

/// Adds a name.
pub fn add_name(alloc: Global, names: &mut IndexSet<Vec<u8>>, name: &Name) -> Result<(), Spent>
    ensures { OnOk result (AddsNames (name.now.text ∷ []) names.old.keys names.new.keys) }
{
    names.insert(Vec::from_slice(alloc, name.text.as_bytes())?)?;
    Ok(())
}

impl<'a> Kind<'a> {
    /// The type of an element.
    pub fn sort(self) -> Option<&'a Name>
        ensures { option_copied result ≡ element_type (kind_value self.entry) }
    {
        match self {
            Kind::Individual(sort) => Some(sort),
            Kind::Local(sort) => Some(sort),
            Kind::Relation(_) => None,
            Kind::Neither => None,
        }
    }

    /// The places of the arguments.
    pub fn places(self) -> &'a [Binder]
        ensures { result.now ≡ places_of (kind_value self.entry) }
    {
        match self {
            Kind::Relation(places) => places,
            Kind::Individual(_) => &[],
            Kind::Local(_) => &[],
            Kind::Neither => &[],
        }
    }

    /// Whether it takes another number of arguments.
    pub fn takes_others(self, args: &[Arg]) -> bool
        ensures { result ≡ others_taken (kind_value self.entry) args.now }
    {
        match self {
            Kind::Relation(places) => args.len() != places.len(),
            Kind::Individual(_) => args.len() != 0,
            Kind::Local(_) => args.len() != 0,
            Kind::Neither => false,
        }
    }

    /// Whether it is a relation.
    pub fn is_relation(self) -> bool
        ensures { result ≡ relation_kind (kind_value self.entry) }
    {
        matches!(self, Kind::Relation(_))
    }

    /// Whether it is an individual.
    pub fn is_individual(self) -> bool
        ensures { result ≡ individual_kind (kind_value self.entry) }
    {
        matches!(self, Kind::Individual(_))
    }

    /// Whether it is a parameter or local.
    pub fn is_local(self) -> bool
        ensures { result ≡ local_kind (kind_value self.entry) }
    {
        matches!(self, Kind::Local(_))
    }

    /// Whether it is none of these.
    pub fn is_neither(self) -> bool
        ensures { result ≡ no_kind (kind_value self.entry) }
    {
        matches!(self, Kind::Neither)
    }

    /// Whether it is a relation or an individual.
    pub fn is_global(self) -> bool
        ensures { result ≡ (relation_kind (kind_value self.entry) || individual_kind (kind_value self.entry)) }
    {
        self.is_relation() || self.is_individual()
    }
}
