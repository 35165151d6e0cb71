//! Laws of the definitions, over every protocol.
ghost use Rattle.std.specs.Prelude.{◌≡◌, ℕ, ◌<◌, ◌↔◌, ◌++◌, Bool, List, IsTrue, length, slice_index, slice_index_or, ◌≤◌};
ghost use Rattle.std.specs.List.{Contains};
ghost use Rattle.std.specs.declared.cmp.Ordering.TheVariants.{Less};
ghost use Rattle.dai_model.specs.Protocol.{Protocol};
ghost use Rattle.dai_model.specs.Structure.{Structure};
ghost use Rattle.dai_model.specs.Value.{every, some};
ghost use Rattle.dai_model.specs.WellSorted.{IsProtocol};
ghost use Rattle.dai_model.specs.Reachable.{IsReachable};
ghost use Rattle.dai_model.specs.Clause.{Clause, Meets};
ghost use Rattle.dai_model.specs.Template.{Bounds, IsTemplate};
ghost use Rattle.dai_model.specs.Shapes.{shapes_within, compare_shapes};
ghost use Rattle.dai_model.specs.Subsumption.{Subsumes, IsRenaming, IsCanonical};
ghost use Rattle.dai_model.specs.Weakening.{rank_of, IsCovered};
ghost use Rattle.dai_model.specs.Classes.{Class, all_sizes, up_to, Belongs};
ghost use Rattle.dai_model.specs.Inductive.{IsInductive, IsInGreatest, LieInOne};
ghost use Rattle.dai_model.specs.Answer.{IsAnswer};
ghost use Rattle.dai_model.specs.Report.{IsReport};

/// A quantifier means what it says: `every` is "for all elements", `some` is "for some element".
pub fn quantifiers_range_over_elements()
    ensures for_all { (n : ℕ) (test : ℕ → Bool) → IsTrue (every n test) ↔ ((e : ℕ) → e < n → IsTrue (test e)) }
    ensures for_some { (n : ℕ) (test : ℕ → Bool) → IsTrue (some n test) ↔ ((e : ℕ) × (e < n) × IsTrue (test e)) }
{}

/// The union of two inductive lists is inductive, so the greatest inductive set is inductive too.
pub fn union_is_inductive()
    ensures { (C : Class) (P : Protocol) (I J : List Clause) → IsInductive C P I → IsInductive C P J → IsInductive C P (I ++ J) }
{}

/// Any clauses of the greatest inductive set lie together in one inductive list of templates.
pub fn members_lie_in_one_inductive_list()
    ensures { (C : Class) (P : Protocol) (B : Bounds) (clauses : List Clause) → ((c : Clause) → Contains clauses c → IsInGreatest C P B c) → LieInOne C P B clauses }
{}

/// A list that is inductive over all sizes is inductive up to every sizes.
pub fn inductive_up_to_every_size()
    ensures { (P : Protocol) (I : List Clause) (sizes : List ℕ) → IsInductive all_sizes P I → IsInductive (up_to sizes) P I }
{}

/// A clause of the greatest inductive set holds in every reachable state of the class; over all sizes, at every
/// number of nodes.
pub fn greatest_set_is_invariant()
    ensures { (C : Class) (P : Protocol) (B : Bounds) (c : Clause) → IsProtocol P → IsInGreatest C P B c → (s : Structure) → Belongs C s → IsReachable P s → Meets P s c }
{}

/// A protocol and bounds have at most one answer over a class.
pub fn one_answer()
    ensures { (C : Class) (P : Protocol) (B : Bounds) (I J : List Clause) → IsAnswer C P B I → IsAnswer C P B J → I ≡ J }
{}

/// A protocol and bounds have at most one report over a class.
pub fn one_report()
    ensures { (C : Class) (P : Protocol) (B : Bounds) (text other : List ℕ) → IsReport C P B text → IsReport C P B other → text ≡ other }
{}

/// A clause below another one implies it in every structure.
pub fn below_implies()
    ensures { (P : Protocol) (B : Bounds) (below above : Clause) → IsTemplate P B below → Subsumes P below above → (s : Structure) → Meets P s below → Meets P s above }
{}

/// A clause is below itself.
pub fn below_is_reflexive()
    ensures { (P : Protocol) (B : Bounds) (c : Clause) → IsTemplate P B c → Subsumes P c c }
{}

/// What is below a clause below another one is below that one.
pub fn below_is_transitive()
    ensures { (P : Protocol) (B : Bounds) (a b c : Clause) → IsTemplate P B a → Subsumes P a b → Subsumes P b c → Subsumes P a c }
{}

/// The shapes within bounds stand in print order, each once.
pub fn shapes_stand_in_print_order()
    ensures { (bounds : List ℕ) (i j : ℕ) (d : List ℕ) → i < j → j < length (shapes_within bounds) → compare_shapes (slice_index_or (shapes_within bounds) i d) (slice_index_or (shapes_within bounds) j d) ≡ Less }
{}

/// Every way to give each type a number of variables up to its bound is one of the shapes.
pub fn every_shape_is_listed()
    ensures { (bounds counts : List ℕ) → length counts ≡ length bounds → ((sort : ℕ) → slice_index counts sort ≤ slice_index bounds sort) → Contains (shapes_within bounds) counts }
{}

/// A clause below another one has no more variables and literals together.
pub fn below_has_no_greater_rank()
    ensures { (P : Protocol) (B : Bounds) (c d : Clause) → IsTemplate P B c → IsTemplate P B d → Subsumes P c d → rank_of c ≤ rank_of d }
{}

/// A clause below another one of no greater rank is a renaming of it: the other is below it too, and has the same
/// shape and as many literals.
pub fn below_of_the_same_rank_is_a_renaming()
    ensures below { (P : Protocol) (B : Bounds) (c d : Clause) → IsTemplate P B c → IsTemplate P B d → Subsumes P c d → rank_of d ≤ rank_of c → Subsumes P d c }
    ensures renaming { (P : Protocol) (B : Bounds) (c d : Clause) → IsTemplate P B c → IsTemplate P B d → Subsumes P c d → rank_of d ≤ rank_of c → IsRenaming P c d }
{}

/// Two canonical clauses that are renamings of each other are one.
pub fn canonical_renamings_are_equal()
    ensures { (P : Protocol) (B : Bounds) (c d : Clause) → IsTemplate P B c → IsTemplate P B d → IsRenaming P c d → IsCanonical P B c → IsCanonical P B d → c ≡ d }
{}

/// Between a template and another one above it, of greater rank, lies an immediate weakening of the first.
pub fn weakenings_cover()
    ensures { (P : Protocol) (B : Bounds) (c d : Clause) → IsTemplate P B c → IsTemplate P B d → Subsumes P c d → rank_of c < rank_of d → IsCovered P B c d }
{}
