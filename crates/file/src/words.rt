// Signed words of 32 bits in a list of bytes, low byte first.
ghost use Rattle.std.specs.Prelude.{◌≡◌, ℕ, ◌+◌, ◌*◌, ◌<◌, ◌≤◌, length};
ghost use Rattle.file.specs.Words.{word, span};

// Word k of the bytes.
pub(crate) fn get(bytes: &[u8], k: usize) -> i32
    requires { 4 * k + 4 ≤ length bytes.now }
    ensures { result ≡ word bytes.now k }
{
    let Some(word) = bytes[4 * k..].first_chunk() else {
        unreachable!()
    };
    i32::from_le_bytes(*word)
}

// Fills the place with words from word k on.
pub(crate) fn copy(bytes: &[u8], k: usize, place: &mut [i32])
    requires { 4 * (k + length place.old) ≤ length bytes.now }
    ensures { place.new ≡ span (word bytes.now) k (length place.old) }
{
    for (i, number) in place.iter_mut().enumerate() {
        *number = get(bytes, k + i);
    }
}
