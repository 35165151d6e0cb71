//! Pieces of text, joined.
ghost use Rattle.std.specs.Prelude.{◌≡◌, ◌++◌, OnOk};
ghost use Rattle.dai_model.specs.Report.{joined, if_any};
ghost use Rattle.dai_template.specs.Atoms.{lists_of};

use dai_base::Spent;

/// Adds the pieces, with the text between each two neighbours.
pub fn add_joined(text: &mut Vec<u8>, between: &[u8], pieces: &[Vec<u8>]) -> Result<(), Spent>
    ensures { OnOk result (text.new.items ≡ text.old.items ++ joined between.now (lists_of pieces.now)) }
{
    let mut gap: &[u8] = b"";
    for piece in pieces {
        text.extend_from_slice(gap)?;
        text.extend_from_slice(piece)?;
        gap = between;
    }
    Ok(())
}

/// Adds the joined pieces between two texts, and nothing where there is no piece.
pub fn add_framed(
    text: &mut Vec<u8>,
    before: &[u8],
    between: &[u8],
    after: &[u8],
    pieces: &[Vec<u8>],
) -> Result<(), Spent>
    ensures { OnOk result (text.new.items ≡ text.old.items ++ if_any (lists_of pieces.now) (before.now ++ (joined between.now (lists_of pieces.now) ++ after.now))) }
{
    if pieces.is_empty() {
        return Ok(());
    }
    text.extend_from_slice(before)?;
    add_joined(text, between, pieces)?;
    text.extend_from_slice(after)?;
    Ok(())
}
