//! The judge at statements and declarations.
ghost use Rattle.std.specs.Prelude.{◌≡◌, ℕ, ◌∷◌, [], ◌-◌, List, length, map, MatchOption, OnOk, IfOk};
ghost use Rattle.dai_syntax.specs.Trees.{statement_of, statements_of, declaration_of, declarations_of};
ghost use Rattle.dai_rules.specs.Sites.{block_room, file_room, room_after, room_after_each, statement_sites, statements_sites, locals_of, locals_in, counted_from, counted_at, declared_at, export_at, relation_sites};
ghost use Rattle.dai_rules.specs.First.{judged};
ghost use Rattle.dai_rules.specs.Faults.{IsFaultless, IsTold};
ghost use Rattle.dai_rules.specs.Tables.{AreNames};
ghost use Rattle.dai_rules.specs.Views.{context_of, view_of, seen};
ghost use Rattle.dai_rules.specs.Rooms.{room_of, file_room_of, JudgesCode, JudgesAction, JudgesDeclaration};

use crate::first::{Fault, note_if};
use crate::globals::Globals;
use crate::judge::{Judge, Role, type_of};
use dai_base::Spent;
use dai_syntax::{Binder, Decl, File, Name, Stat};
use std::alloc::Global;

/// How many more locals a block may have, and how many more variables that are existential in force in its
/// requirements.
#[derive(Clone, Copy)]
pub struct Room {
    pub locals: usize,
    pub witnesses: usize,
}

impl Room {
    /// What one block may have.
    pub fn of_block() -> Room
        ensures { room_of result ≡ block_room }
    {
        Room {
            locals: 6,
            witnesses: 16,
        }
    }
}

/// How many more declarations of each kind may come, and the room of all init code together.
#[derive(Clone, Copy)]
pub struct FileRoom {
    pub sorts: usize,
    pub relations: usize,
    pub individuals: usize,
    pub actions: usize,
    pub axioms: usize,
    pub invariants: usize,
    pub init: Room,
}

impl FileRoom {
    /// What one file may have.
    pub fn of_file() -> FileRoom
        ensures { file_room_of result ≡ file_room }
    {
        FileRoom {
            sorts: 8,
            relations: 64,
            individuals: 16,
            actions: 64,
            axioms: 64,
            invariants: 64,
            init: Room::of_block(),
        }
    }
}

impl<'a> Judge<'a> {
    #[cycle(statement)]
    fn statement(&mut self, room: Room, stat: &'a Stat) -> Result<Room, Spent>
        ensures { IfOk result (λ r. JudgesCode (statement_sites (context_of self.old) (room_of room) (statement_of stat.now)) (room_after (context_of self.old) (room_of room) (statement_of stat.now)) (locals_of (statement_of stat.now)) r self.old self.new) }
    {
        match stat {
            Stat::Require { body } => {
                self.sentence(Role::Requirement, body)?;
                Ok(self.witnesses_past(room))
            }
            Stat::Assign { name, args, body } => {
                self.update(name, args, body)?;
                Ok(room)
            }
            Stat::Cond { cond, yes, no } => {
                self.sentence(Role::Value(&[]), cond)?;
                let room = self.statements(room, yes)?;
                self.statements(room, no)
            }
            Stat::Local { binders, body } => {
                let outside = self.depth();
                let locals = self.introduce(room.locals, binders)?;
                let inside = Room {
                    locals,
                    witnesses: room.witnesses,
                };
                let left = self.statements(inside, body)?;
                self.leave_block(outside);
                Ok(left)
            }
        }
    }

    #[cycle(statement)]
    fn statements(&mut self, room: Room, stats: &'a [Stat]) -> Result<Room, Spent>
        ensures { IfOk result (λ r. JudgesCode (statements_sites (context_of self.old) (room_of room) (statements_of stats.now)) (room_after_each (context_of self.old) (room_of room) (statements_of stats.now)) (locals_in (statements_of stats.now)) r self.old self.new) }
    {
        let mut room = room;
        for stat in stats {
            room = self.statement(room, stat)?;
        }
        Ok(room)
    }

    /// The variables of the requirement that was just judged that are existential in force.
    fn witnesses_past(&mut self, room: Room) -> Room
        ensures seen { view_of self.new ≡ seen (view_of self.old) (counted_from room.witnesses self.old.witnesses.items) }
        ensures left { room_of result ≡ record (room_of room) { witnesses = room.witnesses - length self.old.witnesses.items } }
        ensures keys { self.new.locals.keys ≡ self.old.locals.keys }
    {
        Room {
            locals: room.locals,
            witnesses: count_all(&mut self.first, room.witnesses, &self.witnesses),
        }
    }

    /// The arguments of a relation.
    fn relation(&mut self, args: &[Binder])
        ensures { view_of self.new ≡ seen (view_of self.old) (relation_sites (context_of self.old).declarations 5 args.now) }
    {
        let mut left: usize = 5;
        for binder in args {
            self.relation_argument(left, binder);
            left = left.saturating_sub(1);
        }
    }

    fn relation_argument(&mut self, left: usize, binder: &Binder)
        ensures { view_of self.new ≡ seen (view_of self.old) (relation_sites (context_of self.old).declarations left (binder.now ∷ [])) }
    {
        self.counted(left, binder.name.at);
        self.sort(type_of(binder));
    }

    /// The name of a declaration, of whose kind so many may come.
    fn name(&mut self, left: usize, name: &Name)
        ensures { (locals : List (List ℕ)) → AreNames locals self.old.locals.keys → view_of self.new ≡ seen (view_of self.old) (declared_at (context_of self.old) locals name.now ∷ counted_at left name.now.at ∷ []) }
    {
        self.declared(name);
        self.counted(left, name.at);
    }

    fn export(&mut self, name: &Name)
        ensures { view_of self.new ≡ seen (view_of self.old) (export_at (context_of self.old).declarations name.now ∷ []) }
    {
        let unknown = !self.globals.is_action(name);
        self.note_if(unknown, 22, name.at);
    }

    /// The parameters and the body of an action.
    fn action(&mut self, params: &'a [Binder], body: &'a [Stat]) -> Result<(), Spent>
        requires { (context_of self.old).inside ≡ [] }
        ensures { OnOk result (JudgesAction params.now (statements_of body.now) self.old self.new) }
    {
        self.introduce(6, params)?;
        self.statements(Room::of_block(), body)?;
        self.leave_block(0);
        Ok(())
    }

    /// A declaration. The room becomes that behind it.
    fn declaration(&mut self, room: &mut FileRoom, decl: &'a Decl) -> Result<(), Spent>
        requires { (context_of self.old).inside ≡ [] }
        ensures { OnOk result (JudgesDeclaration (declaration_of decl.now) room.old room.new self.old self.new) }
    {
        match decl {
            Decl::SortDecl { name, .. } => {
                self.name(room.sorts, name);
                room.sorts = room.sorts.saturating_sub(1);
                Ok(())
            }
            Decl::RelDecl { name, args } => {
                self.name(room.relations, name);
                self.relation(args);
                room.relations = room.relations.saturating_sub(1);
                Ok(())
            }
            Decl::IndDecl { name, sort } => {
                self.name(room.individuals, name);
                self.sort(sort);
                room.individuals = room.individuals.saturating_sub(1);
                Ok(())
            }
            Decl::AxiomDecl { body, at } => {
                self.counted(room.axioms, *at);
                self.sentence(Role::Axiom, body)?;
                room.axioms = room.axioms.saturating_sub(1);
                Ok(())
            }
            Decl::InitDecl { body } => {
                room.init = self.statements(room.init, body)?;
                Ok(())
            }
            Decl::ActionDecl {
                name,
                params,
                body,
                ..
            } => {
                self.name(room.actions, name);
                self.action(params, body)?;
                room.actions = room.actions.saturating_sub(1);
                Ok(())
            }
            Decl::ExportDecl { name } => {
                self.export(name);
                Ok(())
            }
            Decl::InvDecl { body, at, .. } => {
                self.counted(room.invariants, *at);
                self.sentence(Role::Invariant, body)?;
                room.invariants = room.invariants.saturating_sub(1);
                Ok(())
            }
        }
    }
}

/// Things at these places, of which so many may come. It answers how many more may.
fn count_all(first: &mut Option<Fault>, room: usize, places: &[u32]) -> usize
    ensures judged { first.new ≡ judged first.old (counted_from room places.now) }
    ensures left { result ≡ room - length places.now }
{
    let mut left = room;
    for at in places {
        note_if(first, left == 0, 42, *at);
        left = left.saturating_sub(1);
    }
    left
}

/// The first fault of these declarations, which the globals are of.
fn first_fault<'a>(
    alloc: Global,
    globals: &'a Globals<'a>,
    decls: &'a [Decl],
) -> Result<Option<Fault>, Spent>
    requires { globals.now.decls.now ≡ decls.now }
    ensures { IfOk result (λ fault. MatchOption fault (IsFaultless (map declaration_of decls.now)) (IsTold (map declaration_of decls.now))) }
{
    let mut judge = Judge::new(alloc, globals);
    let mut room = FileRoom::of_file();
    for (here, decl) in decls.iter().enumerate() {
        judge.here = here;
        judge.declaration(&mut room, decl)?;
    }
    Ok(judge.first)
}

/// The first fault of the file against the rules of sorts: that of the least place, and at one place that of the least
/// number. `None` says that no rule is broken. `Spent` is want of memory.
pub fn sort_fault(alloc: Global, file: &File) -> Result<Option<Fault>, Spent>
    ensures { IfOk result (λ fault. MatchOption fault (IsFaultless (declarations_of file.now)) (IsTold (declarations_of file.now))) }
{
    let decls = file.decls.as_slice();
    let globals = Globals::of(alloc, decls)?;
    first_fault(alloc, &globals, decls)
}
