//! The numbers of types, relations and individuals.
ghost use Rattle.std.specs.Prelude.{◌≡◌, map, IfOk};
ghost use Rattle.dai_syntax.specs.Trees.{declaration_of};
ghost use Rattle.dai_sorts.specs.Counts.{counts_of, counts_past, counts_in, no_counts, AreFew, AreCounts};

use dai_base::Spent;
use dai_syntax::Decl;
use std::alloc::Global;

/// How many types, relations and individuals there are.
#[derive(Clone, Copy)]
pub struct Counts {
    pub sorts: u8,
    pub relations: u8,
    pub individuals: u8,
}

impl Counts {
    /// None.
    fn none() -> Counts
        ensures { counts_of result ≡ no_counts }
    {
        Counts {
            sorts: 0,
            relations: 0,
            individuals: 0,
        }
    }

    /// With this declaration.
    fn with(self, decl: &Decl) -> Counts
        requires { AreFew (counts_past (counts_of self) (declaration_of decl.now)) }
        ensures { counts_of result ≡ counts_past (counts_of self) (declaration_of decl.now) }
    {
        let mut counts = self;
        match decl {
            Decl::SortDecl { .. } => counts.sorts += 1,
            Decl::RelDecl { .. } => counts.relations += 1,
            Decl::IndDecl { .. } => counts.individuals += 1,
            Decl::AxiomDecl { .. } => {}
            Decl::InitDecl { .. } => {}
            Decl::ActionDecl { .. } => {}
            Decl::ExportDecl { .. } => {}
            Decl::InvDecl { .. } => {}
        }
        counts
    }
}

/// How many of each kind stand before each declaration of a file, and in all.
#[derive(Drop)]
pub struct Numbers {
    pub before: Vec<Counts>,
    pub all: Counts,
}

impl Numbers {
    /// The numbers of these declarations.
    pub fn of(alloc: Global, decls: &[Decl]) -> Result<Numbers, Spent>
        requires { AreFew (counts_in (map declaration_of decls.now)) }
        ensures { IfOk result (λ n. AreCounts (map declaration_of decls.now) n.before.items n.all) }
    {
        let mut before = Vec::new(alloc);
        let mut all = Counts::none();
        for decl in decls {
            before.push(all)?;
            all = all.with(decl);
        }
        Ok(Numbers { before, all })
    }
}
