//! Bytes that are read.

ghost use Rattle.std.specs.Prelude.{◌≡◌, ◌-◌, ◌++◌, min, length, take, drop};

/// Fills the front of `out` with the bytes from a place on, all that there are, and answers how many.
pub(crate) fn copy_out(bytes: &[u8], at: u64, out: &mut [u8]) -> usize
    ensures count { result ≡ min (length out.old) (length bytes.now - at) }
    ensures bytes { out.new ≡ take result (drop at bytes.now) ++ drop result out.old }
{
    if at >= bytes.len() as u64 {
        return 0;
    }
    let from = at as usize;
    let count = out.len().min(bytes.len() - from);
    out[..count].copy_from_slice(&bytes[from..from + count]);
    count
}
