// Lists: definitions and laws that no single subject owns, and bytes copied. Every crate above may use them.
#![tactic(auto)]

ghost use Rattle.std.specs.Prelude.{◌≡◌, min, length, get_or};
ghost use Rattle.lists.specs.Fill.{over};

// As many bytes as both have, to the start of a lent buffer.
pub fn copy(to: &mut [u8], from: &[u8])
    ensures { to.new ≡ over to.old (λ k. get_or from.now k 0) (min (length from.now) (length to.old)) }
{
    let n = to.len().min(from.len());
    // By index: with copy_from_slice the archive for C would need memcpy and memmove from outside.
    for k in 0..n {
        to[k] = from[k];
    }
}
