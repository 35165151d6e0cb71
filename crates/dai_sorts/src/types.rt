//! The types of the variables of a formula.
ghost use Rattle.std.specs.Prelude.{◌≡◌, ℕ, ◌<◌, ◌≢◌, List, Some, None, map, length, IfOk};
ghost use Rattle.std.specs.Option.{option_map, option_copied};
ghost use Rattle.dai_syntax.specs.declared.tree.Name.{Name as TreeName};
ghost use Rattle.dai_rules.specs.Views.{context_of, view_of, naming_of};
ghost use Rattle.dai_rules.specs.Ranges.{AreUsesWithin};
ghost use Rattle.dai_sorts.specs.Scopes.{type_number};
ghost use Rattle.dai_sorts.specs.Formulas.{AreTypes};
ghost use Rattle.dai_sorts.specs.Sound.{AreTyped};

use crate::reader::Reader;
use dai_base::Spent;
use dai_rules::classes::{Summary, labels, summaries};
use dai_rules::judge::Judge;

/// The type of each variable that the judge has seen.
pub fn types_of<'a>(reader: &Reader<'a>, judge: &Judge<'a>) -> Result<Vec<u8>, Spent>
    requires within { AreUsesWithin (length (naming_of judge.now.naming).variables) (view_of judge.now).uses }
    requires typed { AreTyped (length (naming_of judge.now.naming).variables) (view_of judge.now).uses }
    ensures { IfOk result (λ types. AreTypes (context_of reader.now.judge).declarations (naming_of judge.now.naming).variables (view_of judge.now).uses types.items) }
{
    let labels = labels(reader.alloc, judge.naming.count(), &judge.uses)?;
    let summaries = summaries(reader.alloc, &labels, &judge.uses)?;
    let mut types = Vec::new(reader.alloc);
    for label in &labels {
        types.push(type_of(reader, summaries[*label]))?;
    }
    Ok(types)
}

/// The type of a class of variables.
fn type_of<'a>(reader: &Reader<'a>, summary: Summary<'a>) -> u8
    requires { option_copied summary.sort ≢ None }
    ensures { (t : List ℕ) → option_map (λ (name : TreeName). name.text) (option_copied summary.entry.sort) ≡ Some t → result ≡ type_number (context_of reader.now.judge).declarations t }
{
    match summary.sort {
        Some(sort) => reader.sort(sort),
        None => unreachable!(),
    }
}
