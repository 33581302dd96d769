ghost use Rattle.std.specs.Prelude.{◌≡◌, ◌≤◌, ◌<◌, [], take, length};

/// Copies the longest prefix of `from` that fits, of at most `most` bytes, to the front of `to`. Returns its length.
pub(crate) fn copy_front(from: &[u8], most: usize, to: &mut [u8]) -> usize
    requires { 0 < most }
    ensures within { result ≤ length from.now }
    ensures most { result ≤ most }
    ensures fits { result ≤ length to.new }
    ensures copied { take result to.new ≡ take result from.now }
    ensures progress { result ≡ 0 → 0 < length to.new → from.now ≡ [] }
{
    let count = from.len().min(most).min(to.len());
    to[..count].copy_from_slice(&from[..count]);
    count
}
