//! The first fault among those that are noted.
ghost use Rattle.std.specs.Prelude.{◌≡◌};
ghost use Rattle.dai_rules.specs.First.{comes_before as comes_before_it, noting, noting_all};
ghost use Rattle.dai_rules.specs.Classes.{fault_if};
ghost use Rattle.dai_rules.specs.declared.first.Fault.{Fault};

/// A fault: its number, and the offset at which it stands.
#[derive(Clone, Copy, Debug, PartialEq, Eq)]
pub struct Fault {
    pub number: u8,
    pub at: u32,
}

/// Notes the fault of this number at this place: the least place is kept, and at one place the least number.
pub fn note(first: &mut Option<Fault>, number: u8, at: u32)
    ensures { first.new ≡ noting first.old (record { number = number; at = at }) }
{
    let fault = Fault { number, at };
    *first = match *first {
        Some(noted) => Some(earlier(fault, noted)),
        None => Some(fault),
    };
}

/// The one that comes first.
fn earlier(fault: Fault, noted: Fault) -> Fault
    ensures { Some result ≡ noting (Some noted) fault }
{
    if comes_before(fault, noted) {
        fault
    } else {
        noted
    }
}

/// Notes it where the rule is broken.
pub fn note_if(first: &mut Option<Fault>, broken: bool, number: u8, at: u32)
    ensures { first.new ≡ noting_all first.old (fault_if broken number at) }
{
    if broken {
        note(first, number, at);
    }
}

fn comes_before(fault: Fault, noted: Fault) -> bool
    ensures { result ≡ comes_before_it fault noted }
{
    fault.at < noted.at || (fault.at == noted.at && fault.number < noted.number)
}
