//! Protocols of types and relations alone, in which nothing happens.
ghost use Rattle.std.specs.Prelude.{◌≡◌, [], ◌∷◌, map, IfOk};
ghost use Rattle.std.specs.declared.alloc.Global.{Global as Heap};
ghost use Rattle.dai_logic.specs.Parts.{sort_of, relation_of};
ghost use Rattle.dai_logic.specs.Protocols.{protocol_of};
ghost use Rattle.dai_model.specs.Profile.{IsAccepted};
ghost use Rattle.dai_model.specs.Triples.{triples as triples_of_the_model};
ghost use Rattle.dai_samples.specs.Samples.{plain as plain_of_the_model, locks as locks_of_the_model, steps as steps_of_the_model};

use dai_base::{Spent, Text};
use dai_logic::{Block, Protocol, RelInfo, SortInfo};
use std::alloc::Global;

/// A type.
pub fn sort(alloc: Global, name: &[u8], ordered: bool) -> Result<SortInfo, Spent>
    ensures { IfOk result (λ s. sort_of s ≡ record { name = name.now; ordered = ordered }) }
{
    Ok(SortInfo {
        name: Text::from_bytes(alloc, name)?,
        ordered,
    })
}

/// A relation over the types of these numbers.
pub fn relation(alloc: Global, name: &[u8], args: &[u8]) -> Result<RelInfo, Spent>
    ensures { IfOk result (λ r. relation_of r ≡ record { name = name.now; arguments = args.now }) }
{
    Ok(RelInfo {
        name: Text::from_bytes(alloc, name)?,
        args: Vec::from_slice(alloc, args)?,
    })
}

/// A block that does nothing.
fn nothing(alloc: Global) -> Block
    ensures params { result.params.items ≡ [] }
    ensures locals { result.locals.items ≡ [] }
    ensures code { result.code.items ≡ [] }
{
    Block {
        params: Vec::new(alloc),
        locals: Vec::new(alloc),
        code: Vec::new(alloc),
    }
}

/// The protocol of these types and relations, in which nothing happens.
fn plain(alloc: Global, sorts: Vec<SortInfo>, relations: Vec<RelInfo>) -> Protocol
    requires { IsAccepted (plain_of_the_model (map sort_of sorts.items) (map relation_of relations.items)) }
    ensures { protocol_of result ≡ plain_of_the_model (map sort_of sorts.items) (map relation_of relations.items) }
{
    Protocol {
        sorts,
        relations,
        individuals: Vec::new(alloc),
        axioms: Vec::new(alloc),
        init: nothing(alloc),
        actions: Vec::new(alloc),
        invariants: Vec::new(alloc),
    }
}

/// Clients, servers, links between them, and the semaphores of servers.
pub fn locks(alloc: Global) -> Result<Protocol, Spent>
    ensures { IfOk result (λ p. protocol_of p ≡ locks_of_the_model) }
{
    let sorts = vec![in alloc;
        sort(alloc, b"client", false)?,
        sort(alloc, b"server", false)?,
    ]?;
    let link = relation(alloc, b"link", &[0, 1])?;
    let semaphore = relation(alloc, b"semaphore", &[1])?;
    Ok(plain(alloc, sorts, vec![in alloc; link, semaphore]?))
}

/// An ordered type, and a relation over it.
pub fn steps(alloc: Global) -> Result<Protocol, Spent>
    ensures { IfOk result (λ p. protocol_of p ≡ steps_of_the_model) }
{
    let sorts = vec![in alloc; sort(alloc, b"n", true)?]?;
    let relations = vec![in alloc; relation(alloc, b"p", &[0])?]?;
    Ok(plain(alloc, sorts, relations))
}

/// A type, and a relation of triples over it.
pub fn triples(alloc: Global) -> Result<Protocol, Spent>
    ensures { IfOk result (λ p. protocol_of p ≡ triples_of_the_model) }
{
    let sorts = vec![in alloc; sort(alloc, b"t", false)?]?;
    let relations = vec![in alloc; relation(alloc, b"r", &[0, 0, 0])?]?;
    Ok(plain(alloc, sorts, relations))
}
