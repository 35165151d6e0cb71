//! A law of the translation.
ghost use Rattle.std.specs.Prelude.{◌≡◌, List};
ghost use Rattle.dai_model.specs.Protocol.{Protocol};
ghost use Rattle.dai_rules.specs.Faults.{IsFaultless};
ghost use Rattle.dai_sorts.specs.Protocols.{IsProtocolOf};
ghost use Rattle.dai_syntax.specs.Tree.{Declaration};

/// A file that breaks no rule of sorts is at most one protocol.
pub fn one_protocol()
    ensures { (ds : List Declaration) (P Q : Protocol) → IsFaultless ds → IsProtocolOf ds P → IsProtocolOf ds Q → P ≡ Q }
{}
