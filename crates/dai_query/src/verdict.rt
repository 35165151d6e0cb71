//! What answers a question about structures of all sizes.

use dai_ground::found::Found;

/// The claim holds over all finite structures; or something is found that refutes it.
#[derive(Drop)]
pub enum Verdict {
    Proved,
    Counter(Found),
}
