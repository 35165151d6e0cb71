//! The types of the variables of a formula: those of a variable are those of all that it is compared with.
ghost use Rattle.std.specs.Prelude.{◌≡◌, ℕ, ◌<◌, ◌++◌, ◌∷◌, [], List, length, map, slice_index, slice_index_or, Bool, false, IfOk};
ghost use Rattle.std.specs.List.{flat_map, enumerate_from};
ghost use Rattle.dai_rules.specs.Classes.{numbers_from, after_use, labels_of, relabelled, is_empty, clash, fault_if, variable_faults, ordering_faults};
ghost use Rattle.dai_rules.specs.First.{noting_all};
ghost use Rattle.dai_rules.specs.Ranges.{AreOrderingsWithin};
ghost use Rattle.dai_rules.specs.Labels.{AreLabels, IsSummary, AreSummaries, AreUnordered, AddsType, AddsMark};
ghost use Rattle.dai_rules.specs.Types.{Use as TypeUse};
ghost use Rattle.dai_rules.specs.declared.classes.Summary.{Summary};
ghost use Rattle.dai_rules.specs.Sites.{Whole};
ghost use Rattle.dai_rules.specs.Views.{use_of, ordering_of};

use crate::first::{Fault, note_if};
use crate::judge::{Ordering, Use};
use dai_base::Spent;
use dai_syntax::Name;
use std::alloc::Global;

/// The first type of a class of variables, and whether it has another one.
#[derive(Clone, Copy)]
pub struct Summary<'a> {
    pub sort: Option<&'a Name>,
    pub clashes: bool,
}

/// The label of each variable: those that are compared, directly or through others, have the same one.
pub fn labels(alloc: Global, count: usize, uses: &[Use<'_>]) -> Result<Vec<usize>, Spent>
    ensures value { IfOk result (λ v. v.items ≡ labels_of count (map use_of uses.now)) }
    ensures within { IfOk result (λ v. AreLabels count v.items) }
    ensures len { IfOk result (λ v. length v.items ≡ count) }
{
    let mut labels = own_labels(alloc, count)?;
    for item in uses {
        follow(&mut labels, item);
    }
    Ok(labels)
}

/// Gives two variables that are compared one label.
fn follow(labels: &mut [usize], item: &Use<'_>)
    ensures { labels.new ≡ after_use labels.old (use_of item.now) }
{
    match item {
        Use::Linked { left, right } => merge(labels, *left, *right),
        Use::Typed { .. } => {}
    }
}

/// Each variable alone.
fn own_labels(alloc: Global, count: usize) -> Result<Vec<usize>, Spent>
    ensures { IfOk result (λ v. v.items ≡ numbers_from 0 count) }
{
    let mut labels = Vec::new(alloc);
    for variable in 0..count {
        labels.push(variable)?;
    }
    Ok(labels)
}

/// Gives the class of the right variable the label of the left one's.
fn merge(labels: &mut [usize], left: usize, right: usize)
    ensures { labels.new ≡ relabelled (slice_index labels.old right) (slice_index labels.old left) labels.old }
{
    let to = label_of(labels, left);
    let from = label_of(labels, right);
    relabel(labels, from, to);
}

fn relabel(labels: &mut [usize], from: usize, to: usize)
    ensures { labels.new ≡ relabelled from to labels.old }
{
    for label in labels.iter_mut() {
        if *label == from {
            *label = to;
        }
    }
}

/// The label of a variable.
pub fn label_of(labels: &[usize], variable: usize) -> usize
    ensures { result ≡ slice_index labels.now variable }
{
    labels.get(variable).copied().unwrap_or(0)
}

/// The types of each class, by its label.
pub fn summaries<'a>(
    alloc: Global,
    labels: &[usize],
    uses: &[Use<'a>],
) -> Result<Vec<Summary<'a>>, Spent>
    requires { AreLabels (length labels.now) labels.now }
    ensures { IfOk result (λ v. AreSummaries labels.now (map use_of uses.now) v.items) }
{
    let mut summaries = no_types(alloc, labels.len())?;
    for item in uses {
        add_use(&mut summaries, labels, item);
    }
    Ok(summaries)
}

/// The type that the use gives, if it gives one.
fn add_use<'a>(summaries: &mut [Summary<'a>], labels: &[usize], item: &Use<'a>)
    ensures { (uses : List TypeUse) → AreLabels (length labels.now) labels.now → AreSummaries labels.now uses summaries.old → AreSummaries labels.now (uses ++ use_of item.now ∷ []) summaries.new }
{
    match item {
        Use::Typed { variable, sort } => add_type(summaries, label_of(labels, *variable), sort),
        Use::Linked { .. } => {}
    }
}

/// No types for so many labels.
fn no_types<'a>(alloc: Global, count: usize) -> Result<Vec<Summary<'a>>, Spent>
    ensures len { IfOk result (λ v. length v.items ≡ count) }
    ensures each { IfOk result (λ v. (label : ℕ) (d : Summary) → label < count → IsSummary [] (slice_index_or v.items label d)) }
{
    let mut summaries = Vec::new(alloc);
    for number in 0..count {
        let _number: usize = number;
        summaries.push(Summary {
            sort: None,
            clashes: false,
        })?;
    }
    Ok(summaries)
}

/// A further type of the class with this label.
fn add_type<'a>(summaries: &mut [Summary<'a>], label: usize, sort: &'a Name)
    ensures { AddsType label sort.now.text summaries.old summaries.new }
{
    if label < summaries.len() {
        summaries[label] = with_sort(summaries[label], sort);
    }
}

/// A further type.
fn with_sort<'a>(summary: Summary<'a>, sort: &'a Name) -> Summary<'a>
    ensures { (types : List (List ℕ)) → IsSummary types summary.entry → IsSummary (types ++ sort.now.text ∷ []) result }
{
    match summary.sort {
        None => Summary {
            sort: Some(sort),
            clashes: false,
        },
        Some(first) => Summary {
            sort: Some(first),
            clashes: summary.clashes || first.text.as_bytes() != sort.text.as_bytes(),
        },
    }
}

/// Each variable has a type, and no two.
pub fn judge_variables<'a>(
    first: &mut Option<Fault>,
    variables: &[&'a Name],
    labels: &[usize],
    summaries: &[Summary<'a>],
)
    requires labels { AreLabels (length labels.now) labels.now }
    requires count { length labels.now ≡ length variables.now }
    requires summaries { length summaries.now ≡ length labels.now }
    ensures { (uses : List TypeUse) → AreSummaries labels.now uses summaries.now → first.new ≡ noting_all first.old (flat_map (variable_faults labels.now uses) (enumerate_from 0 (map (λ x. x.now) variables.now))) }
{
    for (number, variable) in variables.iter().enumerate() {
        judge_variable(first, variable.at, summaries[labels[number]]);
    }
}

fn judge_variable(first: &mut Option<Fault>, at: u32, summary: Summary<'_>)
    ensures { (types : List (List ℕ)) → IsSummary types summary.entry → first.new ≡ noting_all first.old (fault_if (is_empty types) 25 at ++ fault_if (clash types) 24 at) }
{
    note_if(first, summary.sort.is_none(), 25, at);
    note_if(first, summary.clashes, 24, at);
}

/// No marks for so many labels.
pub fn no_marks(alloc: Global, count: usize) -> Result<Vec<bool>, Spent>
    ensures len { IfOk result (λ v. length v.items ≡ count) }
    ensures each { IfOk result (λ v. (label : ℕ) (d : Bool) → label < count → slice_index_or v.items label d ≡ false) }
{
    let mut marks = Vec::new(alloc);
    for number in 0..count {
        let _number: usize = number;
        marks.push(false)?;
    }
    Ok(marks)
}

/// A variable that is compared by order has no type in a marked class.
pub fn judge_order(
    first: &mut Option<Fault>,
    orderings: &[Ordering],
    labels: &[usize],
    marks: &[bool],
)
    requires labels { AreLabels (length labels.now) labels.now }
    requires within { AreOrderingsWithin (length labels.now) (map ordering_of orderings.now) }
    ensures { (w : Whole) → AreUnordered w.declarations labels.now w.uses marks.now → first.new ≡ noting_all first.old (flat_map (ordering_faults w labels.now) (map ordering_of orderings.now)) }
{
    for ordering in orderings {
        judge_one_order(first, ordering, labels, marks);
    }
}

fn judge_one_order(first: &mut Option<Fault>, ordering: &Ordering, labels: &[usize], marks: &[bool])
    requires labels { AreLabels (length labels.now) labels.now }
    requires within { ordering.now.variable < length labels.now }
    ensures { (w : Whole) → AreUnordered w.declarations labels.now w.uses marks.now → first.new ≡ noting_all first.old (ordering_faults w labels.now (ordering_of ordering.now)) }
{
    let broken = is_marked(marks, label_of(labels, ordering.variable));
    note_if(first, broken, 26, ordering.at);
}

/// Marks the label.
pub fn mark(marks: &mut [bool], label: usize)
    ensures { AddsMark label marks.old marks.new }
{
    if label < marks.len() {
        marks[label] = true;
    }
}

/// Whether the label is marked.
pub fn is_marked(marks: &[bool], label: usize) -> bool
    ensures { result ≡ slice_index_or marks.now label false }
{
    marks.get(label).copied().unwrap_or(false)
}
