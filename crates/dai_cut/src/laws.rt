//! Laws over every protocol: of restriction to embedded structures and cuts, of small models, and of the use of an
//! answer.
ghost use Rattle.std.specs.Prelude.{◌≡◌, ◌↔◌, ℕ, ◌<◌, ◌≤◌, Bool, true, false, List, Some, slice_get, length, max, ◌+◌, ◌⊎◌, IsTrue};
ghost use Rattle.std.specs.List.{All, Contains};
ghost use Rattle.dai_model.specs.Formula.{Formula, Statements};
ghost use Rattle.dai_model.specs.Protocol.{Protocol, Block, Invariant};
ghost use Rattle.dai_model.specs.Structure.{Structure, IsStructure, size_of};
ghost use Rattle.dai_model.specs.Value.{Environment, environment_of, value_of, Satisfies};
ghost use Rattle.dai_model.specs.WellSorted.{Scope, IsProtocol, IsWellSorted, closed_scope, EnvironmentFits, IsWellSortedCode, IsWellSortedBlock};
ghost use Rattle.dai_model.specs.Profile.{has_quantifier, is_universal, is_exists_forall, witnesses, witnesses_in, requirements_in, AreDirect, IsBlockInProfile, IsAccepted};
ghost use Rattle.dai_model.specs.Execution.{after_statements, executes};
ghost use Rattle.dai_model.specs.Reachable.{AreElements, IsReachable};
ghost use Rattle.dai_model.specs.Sizes.{count_of, individual_count, size_bound, size_bounds, needed_for_block, needed_for_implied};
ghost use Rattle.dai_model.specs.Classes.{Class, all_sizes, up_to, Belongs};
ghost use Rattle.dai_model.specs.Placement.{ArePlacements};
ghost use Rattle.dai_model.specs.Clause.{Clause, clause_value, Meets, MeetsEach};
ghost use Rattle.dai_model.specs.Template.{Bounds, IsTemplate};
ghost use Rattle.dai_model.specs.Subsumption.{Subsumes};
ghost use Rattle.dai_model.specs.Inductive.{IsInductive, IsInGreatest};
ghost use Rattle.dai_model.specs.Answer.{IsAnswer, IsEntailed, AreMissing};
ghost use Rattle.dai_model.specs.Report.{IsReport};
ghost use Rattle.dai_cut.specs.Embedding.{images, IsEmbedding, IsEmbeddedAt, is_image, image_of_placement};
ghost use Rattle.dai_cut.specs.Among.{value_among, within, IsWitnessed, HaveWitnesses};
ghost use Rattle.dai_cut.specs.Cut.{count_below, nth_below, numbering, place_of, IsClosed, IsCut, AreChosen, VariablesAreChosen, Element, count_in, HoldsEach};
ghost use Rattle.dai_cut.specs.Small.{HoldsAfter, HoldsAtFirst, Follows, IsUniversalClaim, IsTrueAfter, IsTrueAtFirst, IsTrueGiven, AreEnough, bound_counts};

/// The numbers that pass a test are numbered in order: each has the count of those below it as its number.
pub fn numbering_is_in_order()
    ensures passes { (test : ℕ → Bool) (n k : ℕ) → k < count_below test n → IsTrue (test (nth_below test n k)) }
    ensures in_order { (test : ℕ → Bool) (n j k : ℕ) → j < k → k < count_below test n → nth_below test n j < nth_below test n k }
    ensures each { (test : ℕ → Bool) (n e : ℕ) → e < n → IsTrue (test e) → nth_below test n (count_below test e) ≡ e }
{}

/// The value of a formula in an embedded structure is its value in the large one where every quantifier ranges over the
/// images. Without quantifiers it has one value in both. A formula that is universal in force goes down to the small
/// structure, one that is existential in force goes up, and an exists-forall one goes down where its witnesses are
/// images.
pub fn formulas_are_restricted()
    ensures relativised { (P : Protocol) (scope : Scope) (small large : Structure) (maps : ℕ → ℕ → ℕ) (own other : Environment) → IsEmbeddedAt P scope small large maps own other → (f : Formula) → IsWellSorted P scope f → (even : Bool) → value_of small own f ≡ value_among large (within (is_image small maps)) even other f }
    ensures free { (P : Protocol) (scope : Scope) (small large : Structure) (maps : ℕ → ℕ → ℕ) (own other : Environment) → IsEmbeddedAt P scope small large maps own other → (f : Formula) → IsWellSorted P scope f → has_quantifier f ≡ false → value_of small own f ≡ value_of large other f }
    ensures universal { (P : Protocol) (scope : Scope) (small large : Structure) (maps : ℕ → ℕ → ℕ) (own other : Environment) → IsEmbeddedAt P scope small large maps own other → (f : Formula) → IsWellSorted P scope f → IsTrue (is_universal true f) → IsTrue (value_of large other f) → IsTrue (value_of small own f) }
    ensures existential { (P : Protocol) (scope : Scope) (small large : Structure) (maps : ℕ → ℕ → ℕ) (own other : Environment) → IsEmbeddedAt P scope small large maps own other → (f : Formula) → IsWellSorted P scope f → IsTrue (is_universal false f) → IsTrue (value_of small own f) → IsTrue (value_of large other f) }
    ensures exists_forall { (P : Protocol) (scope : Scope) (small large : Structure) (maps : ℕ → ℕ → ℕ) (own other : Environment) → IsEmbeddedAt P scope small large maps own other → (f : Formula) → IsWellSorted P scope f → IsTrue (is_exists_forall true f) → IsWitnessed large (is_image small maps) other f → IsTrue (value_of small own f) }
    ensures sentence { (P : Protocol) (small large : Structure) (maps : ℕ → ℕ → ℕ) → IsStructure P small → IsEmbedding P small large maps → (f : Formula) → IsWellSorted P closed_scope f → IsTrue (is_universal true f) → Satisfies large f → Satisfies small f }
{}

/// A clause that the large structure meets is met by a structure that is embedded in it: a placement in the small
/// structure has a placement as its image, and the clause has one value at both. A clause that is false at a placement
/// is false in each cut that has the placement's elements.
pub fn clauses_are_restricted()
    ensures placements { (P : Protocol) (small large : Structure) (maps : ℕ → ℕ → ℕ) → IsEmbedding P small large maps → (counts : List ℕ) (elements : List (List ℕ)) → ArePlacements P counts small.sizes elements → ArePlacements P counts large.sizes (image_of_placement P maps elements) }
    ensures values { (P : Protocol) (B : Bounds) (small large : Structure) (maps : ℕ → ℕ → ℕ) → IsStructure P small → IsEmbedding P small large maps → (c : Clause) → IsTemplate P B c → (elements : List (List ℕ)) → ArePlacements P c.counts small.sizes elements → clause_value P small c elements ≡ clause_value P large c (image_of_placement P maps elements) }
    ensures meets { (P : Protocol) (B : Bounds) (small large : Structure) (maps : ℕ → ℕ → ℕ) → IsStructure P small → IsEmbedding P small large maps → (c : Clause) → IsTemplate P B c → Meets P large c → Meets P small c }
    ensures numbered { (P : Protocol) (counts : List ℕ) (s : Structure) (chosen : ℕ → ℕ → Bool) (small : Structure) (elements : List (List ℕ)) → IsStructure P s → IsCut P s chosen small → ArePlacements P counts s.sizes elements → VariablesAreChosen chosen counts elements → ArePlacements P counts small.sizes (image_of_placement P (place_of chosen) elements) }
    ensures cut { (P : Protocol) (B : Bounds) (c : Clause) (s : Structure) (chosen : ℕ → ℕ → Bool) (small : Structure) (elements : List (List ℕ)) → IsTemplate P B c → IsStructure P s → IsCut P s chosen small → ArePlacements P c.counts s.sizes elements → VariablesAreChosen chosen c.counts elements → clause_value P small c (image_of_placement P (place_of chosen) elements) ≡ clause_value P s c elements }
{}

/// Each set of elements that has one of each type and is closed under the individuals has one cut, and the chosen
/// elements are the image of its elements.
pub fn each_closed_set_has_one_cut()
    ensures exists { (P : Protocol) (s : Structure) (chosen : ℕ → ℕ → Bool) → IsProtocol P → IsStructure P s → IsClosed P s chosen → (small : Structure) × IsCut P s chosen small }
    ensures one { (P : Protocol) (s : Structure) (chosen : ℕ → ℕ → Bool) (small other : Structure) → IsCut P s chosen small → IsCut P s chosen other → small ≡ other }
    ensures image { (P : Protocol) (s : Structure) (chosen : ℕ → ℕ → Bool) (small : Structure) → IsStructure P s → IsCut P s chosen small → (sort d : ℕ) → d < size_of s sort → is_image small (numbering s chosen) sort d ≡ chosen sort d }
{}

/// Execution is restricted to an embedded structure where each requirement that is executed has its witnesses among
/// the images: the statements leave a structure there, and it is embedded by the same maps in what they leave from the
/// large structure. So a block leaves from a cut that has the arguments, the choices and the witnesses the cut of what
/// it leaves, and the arguments and choices are elements of the cut.
pub fn execution_is_restricted()
    ensures embedded { (P : Protocol) (scope : Scope) (small large t : Structure) (maps : ℕ → ℕ → ℕ) (own other : Environment) (code : Statements) → IsEmbeddedAt P scope small large maps own other → IsWellSortedCode P scope code → AreDirect code → HaveWitnesses P (is_image small maps) other code large → after_statements P other code large ≡ Some t → (u : Structure) × (after_statements P own code small ≡ Some u) × IsStructure P u × IsEmbedding P u t maps }
    ensures elements { (P : Protocol) (s small : Structure) (chosen : ℕ → ℕ → Bool) (sorts es : List ℕ) → IsStructure P s → IsCut P s chosen small → AreElements s sorts es → AreChosen chosen sorts es → AreElements small sorts (images (place_of chosen) sorts es) }
    ensures cut { (P : Protocol) (block : Block) (s t small : Structure) (chosen : ℕ → ℕ → Bool) (arguments choices : List ℕ) → IsWellSortedBlock P block → AreDirect block.code → IsStructure P s → IsCut P s chosen small → AreElements s block.parameters arguments → AreElements s block.choices choices → AreChosen chosen block.parameters arguments → AreChosen chosen block.choices choices → HaveWitnesses P chosen (environment_of arguments choices) block.code s → executes P block s arguments choices ≡ Some t → (u : Structure) × (executes P block small (images (place_of chosen) block.parameters arguments) (images (place_of chosen) block.choices choices) ≡ Some u) × IsCut P t chosen u }
{}

/// A true exists-forall formula has few witnesses, and so has code that leaves a structure: at most so many elements of
/// each type as there are variables that are existential in force. Every set that holds them has witnesses.
pub fn witnesses_are_few()
    ensures formula { (s : Structure) (env : Environment) (f : Formula) → IsTrue (is_exists_forall true f) → IsTrue (value_of s env f) → (marks : List Element) × ((sort : ℕ) → count_in sort marks ≤ count_of sort (witnesses true f)) × ((chosen : ℕ → ℕ → Bool) → HoldsEach chosen marks → IsWitnessed s chosen env f) }
    ensures code { (P : Protocol) (env : Environment) (code : Statements) (s t : Structure) → AreDirect code → after_statements P env code s ≡ Some t → (marks : List Element) × ((sort : ℕ) → count_in sort marks ≤ count_of sort (witnesses_in (requirements_in code))) × ((chosen : ℕ → ℕ → Bool) → HoldsEach chosen marks → HaveWitnesses P chosen env code s) }
{}

/// A few elements lie in a cut of few elements: of each type it has at most as many as there are individuals and
/// elements of the type, or one.
pub fn few_elements_lie_in_a_small_cut()
    ensures { (P : Protocol) (s : Structure) (marks : List Element) → IsProtocol P → IsStructure P s → (chosen : ℕ → ℕ → Bool) × (small : Structure) × HoldsEach chosen marks × IsCut P s chosen small × ((sort : ℕ) → sort < length P.sorts → size_of small sort ≤ max (individual_count P sort + count_in sort marks) 1) }
{}

/// The small-model law for a universal formula: where it follows from clauses in the structures of enough elements, it
/// follows in all.
pub fn small_structures_decide_entailment()
    ensures { (P : Protocol) (B : Bounds) (premises : List Clause) (f : Formula) (sizes : List ℕ) → IsAccepted P → ((c : Clause) → Contains premises c → IsTemplate P B c) → IsWellSorted P closed_scope f → IsTrue (is_universal true f) → AreEnough P (needed_for_implied P (bound_counts P f)) sizes → Follows (up_to sizes) P premises f → Follows all_sizes P premises f }
{}

/// The small-model law for a block and for initial states: where the block leads to a clause from the structures of
/// enough elements that meet the axioms and the premises, it does so from all; and where the initial states of enough
/// elements meet a clause, all do.
pub fn small_structures_decide_steps()
    ensures steps { (P : Protocol) (B : Bounds) (block : Block) (premises : List Clause) (goal : Clause) (sizes : List ℕ) → IsAccepted P → IsWellSortedBlock P block → IsBlockInProfile block → ((c : Clause) → Contains premises c → IsTemplate P B c) → IsTemplate P B goal → AreEnough P (needed_for_block P block goal.counts) sizes → HoldsAfter (up_to sizes) P premises block goal → HoldsAfter all_sizes P premises block goal }
    ensures initial { (P : Protocol) (B : Bounds) (goal : Clause) (sizes : List ℕ) → IsAccepted P → IsTemplate P B goal → AreEnough P (needed_for_block P P.init goal.counts) sizes → HoldsAtFirst (up_to sizes) P goal → HoldsAtFirst all_sizes P goal }
{}

/// The small-model laws where the premises and the goal are closed formulas that are universal in force: over the
/// structures of enough elements the goal is true after each step by the block, in each initial state, or wherever the
/// premises are, exactly where it is so over all structures.
pub fn small_structures_decide_formulas()
    ensures steps { (P : Protocol) (block : Block) (premises : List Formula) (f : Formula) (sizes : List ℕ) → IsAccepted P → IsWellSortedBlock P block → IsBlockInProfile block → All (IsUniversalClaim P) premises → IsUniversalClaim P f → AreEnough P (needed_for_block P block (bound_counts P f)) sizes → IsTrueAfter (up_to sizes) P premises block f ↔ IsTrueAfter all_sizes P premises block f }
    ensures initial { (P : Protocol) (f : Formula) (sizes : List ℕ) → IsAccepted P → IsUniversalClaim P f → AreEnough P (needed_for_block P P.init (bound_counts P f)) sizes → IsTrueAtFirst (up_to sizes) P f ↔ IsTrueAtFirst all_sizes P f }
    ensures implied { (P : Protocol) (premises : List Formula) (f : Formula) (sizes : List ℕ) → IsAccepted P → All (IsUniversalClaim P) premises → IsUniversalClaim P f → AreEnough P (needed_for_implied P (bound_counts P f)) sizes → IsTrueGiven (up_to sizes) P premises f ↔ IsTrueGiven all_sizes P premises f }
{}

/// The small-model law for the answer: at sizes no smaller than the bounds of the protocol, which are enough themselves,
/// lists of templates are inductive exactly where they are over all structures. So the greatest inductive set, the
/// answer, the invariants that follow and the report are one over both classes.
pub fn small_structures_decide_the_answer()
    ensures bounds { (P : Protocol) (B : Bounds) → AreEnough P (size_bound P B.variables) (size_bounds P B.variables) }
    ensures inductive { (P : Protocol) (B : Bounds) (clauses : List Clause) (sizes : List ℕ) → IsAccepted P → ((c : Clause) → Contains clauses c → IsTemplate P B c) → AreEnough P (size_bound P B.variables) sizes → IsInductive (up_to sizes) P clauses ↔ IsInductive all_sizes P clauses }
    ensures greatest { (P : Protocol) (B : Bounds) (c : Clause) (sizes : List ℕ) → IsAccepted P → AreEnough P (size_bound P B.variables) sizes → IsInGreatest (up_to sizes) P B c ↔ IsInGreatest all_sizes P B c }
    ensures answer { (P : Protocol) (B : Bounds) (answer : List Clause) (sizes : List ℕ) → IsAccepted P → AreEnough P (size_bound P B.variables) sizes → IsAnswer (up_to sizes) P B answer ↔ IsAnswer all_sizes P B answer }
    ensures entailed { (P : Protocol) (B : Bounds) (i : ℕ) (f : Invariant) (sizes : List ℕ) → IsAccepted P → AreEnough P (size_bound P B.variables) sizes → slice_get P.invariants i ≡ Some f → IsEntailed (up_to sizes) P B f.body ↔ IsEntailed all_sizes P B f.body }
    ensures missing { (P : Protocol) (B : Bounds) (missing : List ℕ) (sizes : List ℕ) → IsAccepted P → AreEnough P (size_bound P B.variables) sizes → AreMissing (up_to sizes) P B missing ↔ AreMissing all_sizes P B missing }
    ensures report { (P : Protocol) (B : Bounds) (text : List ℕ) (sizes : List ℕ) → IsAccepted P → AreEnough P (size_bound P B.variables) sizes → IsReport (up_to sizes) P B text ↔ IsReport all_sizes P B text }
{}

/// One clause is below another, or it is not: a search of the injections decides, and no axiom is needed.
pub fn below_is_decided()
    ensures { (P : Protocol) (c d : Clause) → Subsumes P c d ⊎ (Subsumes P c d → ⊥) }
{}

/// Each clause of the greatest inductive set has a clause of the answer below it, and so a structure that meets the
/// answer meets the whole set.
pub fn the_answer_is_below_the_greatest_set()
    ensures below { (C : Class) (P : Protocol) (B : Bounds) (answer : List Clause) (c : Clause) → IsAnswer C P B answer → IsInGreatest C P B c → (a : Clause) × Contains answer a × Subsumes P a c }
    ensures meets { (C : Class) (P : Protocol) (B : Bounds) (answer : List Clause) (c : Clause) (s : Structure) → IsAnswer C P B answer → IsInGreatest C P B c → MeetsEach P s answer → Meets P s c }
{}

/// Each reachable state of the class meets the answer, and what follows from the greatest inductive set is true there;
/// over all sizes, at every number of nodes.
pub fn what_follows_is_invariant()
    ensures answer { (C : Class) (P : Protocol) (B : Bounds) (answer : List Clause) → IsProtocol P → IsAnswer C P B answer → (s : Structure) → Belongs C s → IsReachable P s → MeetsEach P s answer }
    ensures entailed { (C : Class) (P : Protocol) (B : Bounds) (f : Formula) → IsProtocol P → IsEntailed C P B f → (s : Structure) → Belongs C s → IsReachable P s → Satisfies s f }
{}
