//! Lists of canonical clauses, each once and in print order.
ghost use Rattle.std.specs.Prelude.{◌≡◌, ◌<◌, ◌≤◌, true, false, length, OnOk};
ghost use Rattle.dai_model.specs.Protocol.{Protocol};
ghost use Rattle.dai_model.specs.Template.{Bounds};
ghost use Rattle.dai_model.specs.Subsumption.{IsRenaming};
ghost use Rattle.dai_template.specs.Spaces.{IsClauseOf, clause_of};
ghost use Rattle.dai_order.specs.Forms.{AreForms, HasGained, IsBesideForms, IsPlaceOf, StandsAt};

use dai_base::Spent;
use dai_template::{Clause, Space};

/// Puts the clause's canonical form at its place in the list, if it isn't there yet.
pub fn add_form(space: &Space, clause: &Clause, list: &mut Vec<Clause>) -> Result<(), Spent>
    requires { IsBesideForms space.now clause.now list.old.items }
    ensures { OnOk result ((P : Protocol) (B : Bounds) → IsClauseOf P B space.now clause.now → AreForms P B space.now list.old.items → HasGained P B space.now (IsRenaming P (clause_of space.now clause.now)) list.old.items list.new.items) }
{
    let form = space.canonical(clause);
    let place = place_of(space, &form, list);
    if !stands_at(space, &form, place, list) {
        list.insert(place, form)?;
    }
    Ok(())
}

/// Whether the clause stands at the place in the list.
pub fn stands_at(space: &Space, clause: &Clause, place: usize, list: &[Clause]) -> bool
    requires { IsBesideForms space.now clause.now list.now }
    ensures there { (P : Protocol) (B : Bounds) → IsClauseOf P B space.now clause.now → result ≡ true → StandsAt space.now list.now clause.now place }
    ensures other { (P : Protocol) (B : Bounds) → IsClauseOf P B space.now clause.now → result ≡ false → StandsAt space.now list.now clause.now place → ⊥ }
{
    place < list.len() && space.compare(&list[place], clause).is_eq()
}

/// How many clauses of the list come before this one in print order.
pub fn place_of(space: &Space, clause: &Clause, list: &[Clause]) -> usize
    requires { IsBesideForms space.now clause.now list.now }
    ensures inside { result ≤ length list.now }
    ensures place { (P : Protocol) (B : Bounds) → IsClauseOf P B space.now clause.now → AreForms P B space.now list.now → IsPlaceOf space.now list.now clause.now result }
{
    let mut low = 0;
    let mut high = list.len();
    while low < high {
        let middle = low + (high - low) / 2;
        if space.compare(&list[middle], clause).is_lt() {
            low = middle + 1;
        } else {
            high = middle;
        }
    }
    low
}
