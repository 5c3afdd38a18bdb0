//! Where two contents differ.
ghost use Rattle.std.specs.Prelude.{◌≡◌, ◌≤◌, length, IfSome};
ghost use Rattle.fts_copy.specs.Differences.{first_difference};

/// The first place at which they differ, or the shorter one's length where it ends first; none where they are equal.
pub fn first_difference(one: &[u8], other: &[u8]) -> Option<usize>
    ensures difference { result ≡ first_difference one.now other.now }
    ensures inside { IfSome result (λ at. at ≤ length one.now) }
{
    let shared = one.len().min(other.len());
    for at in 0..shared {
        if one[at] != other[at] {
            return Some(at);
        }
    }
    if one.len() == other.len() {
        None
    } else {
        Some(shared)
    }
}
