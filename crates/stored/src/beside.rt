// Clause 10.6a: two lists of words beside each other.
ghost use Rattle.std.specs.Prelude.{◌≡◌};
ghost use Rattle.rules.specs.Stored.{first_difference};

// Where two lists of words first differ; where one is the beginning of the other, at the end of the shorter.
pub(crate) fn first_difference(a: &[u32], b: &[u32]) -> Option<usize>
    ensures { result ≡ first_difference a.now b.now }
{
    let unlike = a.iter().zip(b).position(|(x, y)| x != y);
    unlike.or((a.len() != b.len()).then_some(a.len().min(b.len())))
}
