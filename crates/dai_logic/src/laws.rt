//! What structures of tables are: each function here does nothing, and its contract is the law.
ghost use Rattle.std.specs.Prelude.{◌<◌, ◌^◌};
ghost use Rattle.std.specs.List.{All};
ghost use Rattle.dai_model.specs.Protocol as Model;
ghost use Rattle.dai_model.specs.Structure as Structures;
ghost use Rattle.dai_model.specs.Structure.{IsStructure};
ghost use Rattle.dai_logic.specs.Protocols.{protocol_of};
ghost use Rattle.dai_logic.specs.Tables.{structure_of, Fits, IsStoodFor};

use crate::protocol::Protocol;
use crate::structure::Structure;

/// A structure that fits a protocol stands for one of the protocol's structures.
pub fn what_fits_is_a_structure(protocol: &Protocol, s: &Structure)
    requires { Fits (protocol_of protocol.now) s.now }
    ensures { IsStructure (protocol_of protocol.now) (structure_of (protocol_of protocol.now) s.now) }
{}

/// For each of a protocol's structures with sizes up to 65,535 there are sizes, tables and values that fit and
/// stand for it.
pub fn each_structure_is_stood_for()
    ensures { (P : Model.Protocol) (s : Structures.Structure) → IsStructure P s → All (λ size. size < 2 ^ 16) s.sizes → IsStoodFor P s }
{}
