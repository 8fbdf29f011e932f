ghost use Rattle.bm_base.specs.Held.{Fills};

// Copies the bytes from `at` on into the front of the buffer, as many as there are and fit, and says how many.
pub(crate) fn copy_from(bytes: &[u8], at: u64, buf: &mut [u8]) -> usize
    ensures { Fills bytes.now at result buf.old buf.new }
{
    if at >= bytes.len() as u64 {
        return 0;
    }
    let rest = &bytes[at as usize..];
    let count = rest.len().min(buf.len());
    buf[..count].copy_from_slice(&rest[..count]);
    count
}
