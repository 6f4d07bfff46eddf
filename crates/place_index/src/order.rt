//! Parts put in the order of the vector, each position in one of them at most.

ghost use Rattle.std.specs.Prelude.{◌≡◌, ℕ};
ghost use Rattle.std.specs.List.{list_any};
ghost use Rattle.std.specs.List.Sorted.{IsNonDecreasingBy};
ghost use Rattle.place_index.specs.Found.{AscendFrom, is_in};

/// Puts parts in order, so that each has a position and ends where the next begins or before. The positions in them
/// stay the same.
pub(crate) fn put_in_order(parts: &mut Vec<(usize, usize)>)
    ensures ascend { AscendFrom 0 parts.new.items }
    ensures same { (i : ℕ) → list_any (is_in i) parts.new.items ≡ list_any (is_in i) parts.old.items }
{
    parts.sort_unstable_by_key(|part| part.0);
    merge(parts);
}

// Leaves out of each part what those before it have, and a part that has nothing else. They stand by where they begin.
fn merge(parts: &mut Vec<(usize, usize)>)
    requires { IsNonDecreasingBy (λ part. part.0) parts.old.items }
    ensures ascend { AscendFrom 0 parts.new.items }
    ensures same { (i : ℕ) → list_any (is_in i) parts.new.items ≡ list_any (is_in i) parts.old.items }
{
    let mut kept = 0;
    let mut done = 0;
    for i in 0..parts.len() {
        let (start, end) = parts[i];
        let start = start.max(done);
        if start < end {
            parts[kept] = (start, end);
            kept += 1;
            done = end;
        }
    }
    parts.truncate(kept);
}
