// Records that are put into a place.
ghost use Rattle.std.specs.Prelude.{◌≡◌, ◌+◌, ◌*◌, ◌≤◌, length, pos};
ghost use Rattle.file.specs.Kinds.{family_number};
ghost use Rattle.file.specs.Written.{Puts, link_after, head_words, row_words};

use crate::kinds::FamilyKind;
use crate::records::WORDS;
use crate::writing::words;

// The link in word 0 of record i, in a file of m rows.
fn link_after(i: u8, m: u8) -> i32
    ensures { result ≡ link_after i m }
{
    if i < m { i32::from(i + 1) } else { 0 }
}

// Puts record 0 of a file of m rows.
pub(crate) fn put_head(place: &mut [u8], m: u8, family: FamilyKind, header: &[i32])
    requires inside { 80 ≤ length place.old }
    requires ten { length header.now ≡ 10 }
    ensures { Puts place.old place.new 0 (head_words m (pos (family_number family)) header.now) }
{
    words::put(place, 0, link_after(0, m));
    words::put(place, 1, 0);
    words::put(place, 2, family.into());
    words::put_list(place, 3, header);
    words::put_list(place, 13, &[0; 7]);
}

// Puts a row into record i of a file of m rows.
pub(crate) fn put_row(place: &mut [u8], i: u8, m: u8, list: &[i32])
    requires inside { 80 * i + 80 ≤ length place.old }
    requires eleven { length list.now ≡ 11 }
    ensures { Puts place.old place.new (20 * i) (row_words i m list.now) }
{
    // `as usize`, and not `from`: the proof did not close over what a conversion gives.
    let first = WORDS * i as usize;
    words::put(place, first, link_after(i, m));
    words::put_list(place, first + 1, list);
    words::put_list(place, first + 12, &[0; 8]);
}
