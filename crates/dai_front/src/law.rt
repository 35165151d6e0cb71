//! Laws of files.
ghost use Rattle.std.specs.Prelude.{◌≡◌, ℕ, List};
ghost use Rattle.dai_base.specs.declared.fault.Place.{Place};
ghost use Rattle.dai_model.specs.Protocol.{Protocol};
ghost use Rattle.dai_front.specs.Files.{IsFaultOf, IsProtocolIn};

use dai_lex::one_reading;
use dai_sorts::one_protocol;
use dai_syntax::{one_fault, one_file};

/// Bytes are at most one protocol, have at most one fault, and never both.
pub fn one_verdict()
    ensures fault { (bytes : List ℕ) (n m : ℕ) (p q : Place) → IsFaultOf bytes n p → IsFaultOf bytes m q → (n ≡ m) × (p ≡ q) }
    ensures protocol { (bytes : List ℕ) (P Q : Protocol) → IsProtocolIn bytes P → IsProtocolIn bytes Q → P ≡ Q }
    ensures never_both { (bytes : List ℕ) (P : Protocol) (n : ℕ) (p : Place) → IsProtocolIn bytes P → IsFaultOf bytes n p → ⊥ }
{
    one_reading();
    one_file();
    one_fault();
    one_protocol();
}
