ghost use Rattle.std.specs.Prelude.{◌≡◌, ◌<◌, ℕ, Bool};

/// A preferred value for each variable below a count: what the closure answers at that variable.
/// It may be called on each of them, and no two calls on one variable answer differently.
#[derive(Drop)]
pub struct Guide<F: Fn(usize) -> bool> {
    pub count: usize,
    pub phase: F,
}

impl<F: Fn(usize) -> bool> Guide<F> {
    /// A guide over the variables below `count`. Takes no memory.
    pub fn new(count: usize, f: F) -> Guide<F>
        requires callable { (v : ℕ) → v < count → F.pre f v }
        requires one_answer { (v : ℕ) (a b : Bool) → v < count → F.post f v a → F.post f v b → a ≡ b }
        ensures count { result.count ≡ count }
        ensures phase { result.phase ≡ f }
    {
        Guide { count, phase: f }
    }

    /// The value that the guide prefers at a variable.
    pub fn prefers(&self, var: usize) -> bool
        requires { F.pre self.now.phase var }
        ensures { F.post self.now.phase var result }
    {
        (self.phase)(var)
    }
}
