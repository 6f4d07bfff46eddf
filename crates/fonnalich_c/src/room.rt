//! An answer in its room.
ghost use Rattle.fonnalich_c.specs.Room as spec;

/// Writes the answer to the beginning of `out`, where there is room for all of it, and tells its length.
pub(crate) fn write(answer: &[u8], out: &mut [u8]) -> isize
    ensures { spec.IsWritten answer.now out.old out.new result }
{
    let length = answer.len();
    if length <= out.len() {
        out[..length].copy_from_slice(answer);
    }
    length as isize
}
