// Words that are put into a place.
ghost use Rattle.std.specs.Prelude.{◌+◌, ◌*◌, ◌≤◌, length};
ghost use Rattle.file.specs.Written.{Put, Puts};

// Puts x into word k, and leaves every other word and the bytes past it as they were.
pub(crate) fn put(place: &mut [u8], k: usize, x: i32)
    requires { 4 * k + 4 ≤ length place.old }
    ensures { Put place.old place.new k x }
{
    place[4 * k..4 * k + 4].copy_from_slice(&x.to_le_bytes());
}

// Puts a list of numbers into the words from k on.
pub(crate) fn put_list(place: &mut [u8], k: usize, list: &[i32])
    requires { 4 * (k + length list.now) ≤ length place.old }
    ensures { Puts place.old place.new k list.now }
{
    for (i, number) in list.iter().enumerate() {
        put(place, k + i, *number);
    }
}
