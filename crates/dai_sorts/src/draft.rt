//! What was read of a protocol so far.
ghost use Rattle.std.specs.Prelude.{◌≡◌, ◌+◌, ◌≤◌, ℕ, [], Bool, List, map, length, OnOk, IfOk};
ghost use Rattle.dai_syntax.specs.Tree as Tree;
ghost use Rattle.dai_syntax.specs.Tree.{Declaration};
ghost use Rattle.dai_syntax.specs.Trees.{formula_of as tree_of, statements_of as trees_of, declaration_of};
ghost use Rattle.dai_logic.specs.Protocols.{action_of};
ghost use Rattle.dai_rules.specs.Names.{with_inside, is_among};
ghost use Rattle.dai_rules.specs.Tables.{AddsNames};
ghost use Rattle.dai_rules.specs.Views.{context_of};
ghost use Rattle.dai_rules.specs.Sites.{as_axiom, as_invariant, assigned_by, sentence_sites};
ghost use Rattle.std.specs.List.{flat_map, filter_map};
ghost use Rattle.dai_sorts.specs.Scopes.{binder_type};
ghost use Rattle.dai_sorts.specs.Statements.{locals_in};
ghost use Rattle.dai_sorts.specs.Protocols.{label_at, exported_name, written_action, IsAction};
ghost use Rattle.dai_sorts.specs.Readers.{scope_of, IsOutside};
ghost use Rattle.dai_sorts.specs.Sound.{AreUnbroken, AreSound};
ghost use Rattle.dai_sorts.specs.Gains.{Gains};
ghost use Rattle.dai_sorts.specs.Drafts.{AreExported, IsDraft, IsSoundDeclaration, HasRoom, drafted, exports_of};

use crate::reader::Reader;
use dai_base::{Spent, Text};
use dai_logic::{Action, Block, Formula, IndInfo, Invariant, RelInfo, SortInfo, Step};
use dai_rules::globals::{add_name, has_name};
use dai_rules::judge::{Role, type_of};
use dai_syntax::{Binder, Decl, Form, Name, Stat};
use indexmap::IndexSet;
use std::alloc::Global;

/// The parts of a protocol so far.
#[derive(Drop)]
pub struct Draft {
    pub sorts: Vec<SortInfo>,
    pub relations: Vec<RelInfo>,
    pub individuals: Vec<IndInfo>,
    pub axioms: Vec<Formula>,
    pub locals: Vec<u8>,
    pub init: Vec<Step>,
    pub actions: Vec<Action>,
    pub invariants: Vec<Invariant>,
}

impl Draft {
    /// Nothing.
    pub fn new(alloc: Global) -> Draft
        ensures { (all : List Declaration) → IsDraft all [] result }
    {
        Draft {
            sorts: Vec::new(alloc),
            relations: Vec::new(alloc),
            individuals: Vec::new(alloc),
            axioms: Vec::new(alloc),
            locals: Vec::new(alloc),
            init: Vec::new(alloc),
            actions: Vec::new(alloc),
            invariants: Vec::new(alloc),
        }
    }

    /// Adds a declaration.
    pub fn add<'a>(
        &mut self,
        reader: &mut Reader<'a>,
        exported: &IndexSet<Vec<u8>>,
        decl: &'a Decl,
    ) -> Result<(), Spent>
        requires outside { IsOutside reader.old }
        requires sound { IsSoundDeclaration (context_of reader.old.judge).declarations (context_of reader.old.judge).here (declaration_of decl.now) }
        requires room { HasRoom (length self.old.locals.items) (declaration_of decl.now) }
        requires exported { AreExported (context_of reader.old.judge).declarations exported.now.keys }
        ensures gains { OnOk result (Gains (context_of reader.old.judge).declarations (context_of reader.old.judge).here (declaration_of decl.now) (drafted self.old) (drafted self.new)) }
        ensures scope { OnOk result (scope_of reader.new ≡ scope_of reader.old) }
    {
        match decl {
            Decl::SortDecl { name, ordered } => self.add_sort(reader.alloc, name, *ordered),
            Decl::RelDecl { name, args } => self.add_relation(reader, name, args),
            Decl::IndDecl { name, sort } => self.add_individual(reader, name, sort),
            Decl::AxiomDecl { body, .. } => self.add_axiom(reader, body),
            Decl::InitDecl { body } => self.add_init(reader, body),
            Decl::ActionDecl {
                name,
                params,
                body,
                ..
            } => self.add_action(reader, has_name(exported, name), name, params, body),
            Decl::ExportDecl { .. } => Ok(()),
            Decl::InvDecl { label, body, .. } => self.add_invariant(reader, label, body),
        }
    }

    fn add_sort(&mut self, alloc: Global, name: &Name, ordered: bool) -> Result<(), Spent>
        ensures { OnOk result ((all : List Declaration) (here : ℕ) → Gains all here (Tree.sort name.now ordered) (drafted self.old) (drafted self.new)) }
    {
        self.sorts.push(SortInfo {
            name: copied(alloc, name)?,
            ordered,
        })?;
        Ok(())
    }

    fn add_relation(
        &mut self,
        reader: &Reader<'_>,
        name: &Name,
        args: &[Binder],
    ) -> Result<(), Spent>
        ensures { OnOk result ((here : ℕ) → Gains (context_of reader.now.judge).declarations here (Tree.relation name.now args.now) (drafted self.old) (drafted self.new)) }
    {
        self.relations.push(RelInfo {
            name: copied(reader.alloc, name)?,
            args: types_of(reader, args)?,
        })?;
        Ok(())
    }

    fn add_individual(&mut self, reader: &Reader<'_>, name: &Name, sort: &Name) -> Result<(), Spent>
        ensures { OnOk result ((here : ℕ) → Gains (context_of reader.now.judge).declarations here (Tree.individual name.now sort.now) (drafted self.old) (drafted self.new)) }
    {
        self.individuals.push(IndInfo {
            name: copied(reader.alloc, name)?,
            sort: reader.sort(sort),
        })?;
        Ok(())
    }

    fn add_axiom<'a>(&mut self, reader: &Reader<'a>, body: &'a Form) -> Result<(), Spent>
        requires outside { IsOutside reader.now }
        requires unbroken { AreUnbroken (sentence_sites (context_of reader.now.judge) (as_axiom (flat_map assigned_by (context_of reader.now.judge).declarations)) (tree_of body.now)) }
        ensures { OnOk result ((at : ℕ) → Gains (context_of reader.now.judge).declarations (context_of reader.now.judge).here (Tree.axiom_of (tree_of body.now) at) (drafted self.old) (drafted self.new)) }
    {
        self.axioms.push(reader.sentence(Role::Axiom, body)?)?;
        Ok(())
    }

    /// Several `after init` are one block, in the order of the file.
    fn add_init<'a>(&mut self, reader: &mut Reader<'a>, body: &'a [Stat]) -> Result<(), Spent>
        requires outside { IsOutside reader.old }
        requires sound { AreSound (context_of reader.old.judge) (trees_of body.now) }
        requires few { length self.old.locals.items + length (locals_in (trees_of body.now)) ≤ 256 }
        ensures gains { OnOk result (Gains (context_of reader.old.judge).declarations (context_of reader.old.judge).here (Tree.init (trees_of body.now)) (drafted self.old) (drafted self.new)) }
        ensures scope { OnOk result (scope_of reader.new ≡ scope_of reader.old) }
    {
        reader.statements(body, &mut self.locals, &mut self.init)
    }

    /// Adds an action if it is exported.
    fn add_action<'a>(
        &mut self,
        reader: &mut Reader<'a>,
        exported: bool,
        name: &Name,
        params: &'a [Binder],
        body: &'a [Stat],
    ) -> Result<(), Spent>
        requires outside { IsOutside reader.old }
        requires sound { AreSound (with_inside (context_of reader.old.judge) params.now) (trees_of body.now) }
        requires parameters { length params.now ≤ 256 }
        requires locals { length (locals_in (trees_of body.now)) ≤ 256 }
        requires exported { exported ≡ is_among name.now.text (filter_map exported_name (context_of reader.old.judge).declarations) }
        ensures gains { OnOk result ((flag : Bool) → Gains (context_of reader.old.judge).declarations (context_of reader.old.judge).here (Tree.action name.now params.now (trees_of body.now) flag) (drafted self.old) (drafted self.new)) }
        ensures scope { OnOk result (scope_of reader.new ≡ scope_of reader.old) }
    {
        if exported {
            self.actions.push(action(reader, name, params, body)?)?;
        }
        Ok(())
    }

    /// Adds an invariant, whose label is its position where it has none.
    fn add_invariant<'a>(
        &mut self,
        reader: &Reader<'a>,
        label: &Option<Name>,
        body: &'a Form,
    ) -> Result<(), Spent>
        requires outside { IsOutside reader.now }
        requires unbroken { AreUnbroken (sentence_sites (context_of reader.now.judge) as_invariant (tree_of body.now)) }
        ensures { OnOk result ((at : ℕ) → Gains (context_of reader.now.judge).declarations (context_of reader.now.judge).here (Tree.invariant label.now (tree_of body.now) at) (drafted self.old) (drafted self.new)) }
    {
        let label = label_of(reader.alloc, label, &self.invariants)?;
        let body = reader.sentence(Role::Invariant, body)?;
        self.invariants.push(Invariant { label, body })?;
        Ok(())
    }
}

/// An action with its parameters and locals.
fn action<'a>(
    reader: &mut Reader<'a>,
    name: &Name,
    params: &'a [Binder],
    body: &'a [Stat],
) -> Result<Action, Spent>
    requires outside { IsOutside reader.old }
    requires sound { AreSound (with_inside (context_of reader.old.judge) params.now) (trees_of body.now) }
    requires parameters { length params.now ≤ 256 }
    requires locals { length (locals_in (trees_of body.now)) ≤ 256 }
    ensures meant { IfOk result (λ a. IsAction (context_of reader.old.judge).declarations (written_action (context_of reader.old.judge).here name.now params.now (trees_of body.now)) (action_of a)) }
    ensures scope { OnOk result (scope_of reader.new ≡ scope_of reader.old) }
{
    let mut locals = Vec::new(reader.alloc);
    let mut code = Vec::new(reader.alloc);
    let types = reader.enter_parameters(params)?;
    reader.statements(body, &mut locals, &mut code)?;
    reader.leave(0, 0);
    Ok(Action {
        name: copied(reader.alloc, name)?,
        block: Block {
            params: types,
            locals,
            code,
        },
    })
}

/// The types of the arguments of a relation.
fn types_of(reader: &Reader<'_>, args: &[Binder]) -> Result<Vec<u8>, Spent>
    ensures { IfOk result (λ types. types.items ≡ map (binder_type (context_of reader.now.judge).declarations) args.now) }
{
    let mut types = Vec::new(reader.alloc);
    for arg in args {
        types.push(reader.sort(type_of(arg)))?;
    }
    Ok(types)
}

/// The text of a name.
fn copied(alloc: Global, name: &Name) -> Result<Text, Spent>
    ensures { IfOk result (λ text. text ≡ name.now.text) }
{
    Ok(Text::from_bytes(alloc, name.text.as_bytes())?)
}

/// The label as it is given, or else the position of the invariant behind these, from 1.
fn label_of(alloc: Global, label: &Option<Name>, before: &Vec<Invariant>) -> Result<Text, Spent>
    ensures { IfOk result (λ text. text ≡ label_at (1 + length before.now.items) label.now) }
{
    match label {
        Some(name) => copied(alloc, name),
        None => {
            let position = before.len() + 1;
            let number = format!(in alloc; "{position}")?;
            Ok(Text::from_bytes(alloc, number.as_bytes())?)
        }
    }
}

/// The names that the declarations export.
pub fn exported(alloc: Global, decls: &[Decl]) -> Result<IndexSet<Vec<u8>>, Spent>
    ensures { IfOk result (λ names. AreExported (map declaration_of decls.now) names.keys) }
{
    let mut names = IndexSet::new(alloc);
    for decl in decls {
        add_exported(alloc, &mut names, decl)?;
    }
    Ok(names)
}

/// Adds the name that the declaration exports.
fn add_exported(alloc: Global, names: &mut IndexSet<Vec<u8>>, decl: &Decl) -> Result<(), Spent>
    ensures { OnOk result (AddsNames (exports_of (declaration_of decl.now)) names.old.keys names.new.keys) }
{
    match decl {
        Decl::ActionDecl {
            name,
            exported: true,
            ..
        } => add_name(alloc, names, name),
        Decl::ExportDecl { name } => add_name(alloc, names, name),
        Decl::ActionDecl { .. } => Ok(()),
        Decl::SortDecl { .. } => Ok(()),
        Decl::RelDecl { .. } => Ok(()),
        Decl::IndDecl { .. } => Ok(()),
        Decl::AxiomDecl { .. } => Ok(()),
        Decl::InitDecl { .. } => Ok(()),
        Decl::InvDecl { .. } => Ok(()),
    }
}
