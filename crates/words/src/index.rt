// The range of a list of indices.
ghost use Rattle.std.specs.Prelude.{◌≡◌};
ghost use Rattle.columns.specs.Columns.{outside};

// Whether an index of the list is n or more.
pub fn index_outside(n: usize, indices: &[u32]) -> bool
    ensures { result ≡ outside n indices.now }
{
    indices.iter().any(|i| n <= *i as usize)
}
