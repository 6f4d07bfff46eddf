//! Starts that move by a row.

ghost use Rattle.std.specs.Prelude.{◌≡◌, ◌<◌, All, map};
ghost use Rattle.std.specs.List.Sorted.{IsNonDecreasing};
ghost use Rattle.place_index.specs.Index.{last, moved};
ghost use Rattle.place_index.specs.Taking.{moved_back};

/// Has each start at `at` or later be one later. The starts ascend, so those are the last ones, and no other is
/// touched.
pub(crate) fn move_starts(starts: &mut [usize], at: usize)
    requires ascend { IsNonDecreasing starts.old }
    requires low { All (λ start. start < last) starts.old }
    ensures { starts.new ≡ map (moved at) starts.old }
{
    let behind = starts.partition_point(|start| *start < at);
    for i in behind..starts.len() {
        starts[i] += 1;
    }
}

/// Has each start behind `at` be one earlier. The starts ascend, so those are the last ones, and no other is touched.
pub(crate) fn move_starts_back(starts: &mut [usize], at: usize)
    requires { IsNonDecreasing starts.old }
    ensures { starts.new ≡ map (moved_back at) starts.old }
{
    let behind = starts.partition_point(|start| *start <= at);
    for index in behind..starts.len() {
        starts[index] -= 1;
    }
}
