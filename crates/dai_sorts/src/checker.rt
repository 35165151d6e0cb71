//! The protocol of a file.
ghost use Rattle.std.specs.Prelude.{IfOk, IfErr, ◌≡◌, [], map};
ghost use Rattle.dai_syntax.specs.Trees.{declaration_of, declarations_of};
ghost use Rattle.dai_logic.specs.Protocols.{protocol_of};
ghost use Rattle.dai_rules.specs.Faults.{IsFaultless, IsFirstSortFault};
ghost use Rattle.dai_sorts.specs.Protocols.{IsProtocolOf};
ghost use Rattle.dai_model.specs.Profile.{IsAccepted};
ghost use Rattle.dai_rules.specs.Views.{context_of};
ghost use Rattle.dai_sorts.specs.Readers.{scope_of};
ghost use Rattle.dai_sorts.specs.Drafts.{drafted, AreExported};
ghost use Rattle.dai_sorts.specs.Errors.{IsTrueFault};

use crate::draft::{Draft, exported};
use crate::error::SortError;
use crate::numbers::Numbers;
use crate::reader::Reader;
use dai_base::Spent;
use dai_logic::{Block, Protocol};
use dai_rules::globals::Globals;
use dai_rules::judge::Judge;
use dai_rules::sort_fault;
use dai_syntax::{Decl, File};
use indexmap::IndexSet;
use std::alloc::Global;

/// The protocol of a file.
///
/// `Ok` means that the file breaks no rule of sorts, and gives the protocol that it is. `Bad` is its first fault:
/// that of the least place, and at one place that of the least number. `Spent` is want of memory.
pub fn check(alloc: Global, file: &File) -> Result<Protocol, SortError>
    ensures protocol { IfOk result (λ p. IsFaultless (declarations_of file.now) × IsProtocolOf (declarations_of file.now) (protocol_of p)) }
    ensures refused { IfErr result (IsTrueFault (declarations_of file.now)) }
{
    if let Some(fault) = sort_fault(alloc, file)? {
        return Err(SortError::Bad {
            number: fault.number,
            at: fault.at,
        });
    }
    let draft = draft(alloc, &file.decls)?;
    Ok(finished(alloc, draft))
}

/// What the declarations of a file without faults say.
fn draft(alloc: Global, decls: &[Decl]) -> Result<Draft, Spent>
    requires { IsFaultless (map declaration_of decls.now) }
    ensures { IfOk result (λ d. IsProtocolOf (map declaration_of decls.now) (drafted d)) }
{
    let globals = Globals::of(alloc, decls)?;
    let exported = exported(alloc, decls)?;
    let mut reader = Reader {
        alloc,
        judge: Judge::new(alloc, &globals),
        numbers: Numbers::of(alloc, decls)?,
        terms: Vec::new(alloc),
    };
    read_each(&mut reader, &exported, decls)
}

/// What the declarations say to a reader that stands outside of all.
fn read_each<'a>(
    reader: &mut Reader<'a>,
    exported: &IndexSet<Vec<u8>>,
    decls: &'a [Decl],
) -> Result<Draft, Spent>
    requires faultless { IsFaultless (map declaration_of decls.now) }
    requires declarations { (context_of reader.old.judge).declarations ≡ map declaration_of decls.now }
    requires inside { (context_of reader.old.judge).inside ≡ [] }
    requires terms { (scope_of reader.old).terms ≡ [] }
    requires exported { AreExported (map declaration_of decls.now) exported.now.keys }
    ensures { IfOk result (λ d. IsProtocolOf (map declaration_of decls.now) (drafted d)) }
{
    let mut draft = Draft::new(reader.alloc);
    for (here, decl) in decls.iter().enumerate() {
        reader.stand_at(here);
        draft.add(reader, exported, decl)?;
    }
    Ok(draft)
}

/// The protocol of these parts.
fn finished(alloc: Global, draft: Draft) -> Protocol
    requires { ∥ IsAccepted (drafted draft) ∥₁ }
    ensures { protocol_of result ≡ drafted draft }
{
    let Draft {
        sorts,
        relations,
        individuals,
        axioms,
        locals,
        init,
        actions,
        invariants,
    } = draft;
    Protocol {
        sorts,
        relations,
        individuals,
        axioms,
        init: Block {
            params: Vec::new(alloc),
            locals,
            code: init,
        },
        actions,
        invariants,
    }
}
