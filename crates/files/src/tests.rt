// How the tests write files and refusals.
use family::fault::Layer;
use file::fault::{FileFault, Refusal};
use file::reading::read;

mod lengths;
mod refusals;
mod row_records;
mod texts;
mod writes;

const LIST: Layer = Layer::List;

const SEARCH: Layer = Layer::Search;

const FILE: Layer = Layer::File;

/// The words of a record.
type Record = [i32; 20];

/// The number, the record, the place and the layer of a refusal, or None where a file is accepted.
type Answer = Option<(u8, usize, usize, Layer)>;

const ACCEPTED: Answer = None;

/// Records, words and the numbers there, where a file differs from the sample.
type Changes = &'static [(usize, usize, i32)];

// The numbers, and then zeros up to N.
// Also in the tests of searches: a crate for two small functions would be no plainer.
fn padded<const N: usize>(numbers: &[i32]) -> [i32; N] {
    let mut list = [0; N];
    for (place, number) in list.iter_mut().zip(numbers) {
        *place = *number;
    }
    list
}

// Two quantities; switches 0 to 3 and 0 to 4 on them, and their sum from 3 on; a point, a split at the first row and
// a proof for each half.
fn sample() -> [Record; 8] {
    [
        padded(&[1, 4, 1, 2, 0]),
        padded(&[2, 2, 0, 3, 1]),
        padded(&[3, 2, 0, 4, 0, 1]),
        padded(&[0, 1, 3, 10_000, 1, 1]),
        padded(&[5, 3, 1, 3, 0]),
        padded(&[6, 5, 1, 0]),
        padded(&[7, 4, 1, 3, 0, -3]),
        padded(&[0, 4, 1, -3]),
    ]
}

fn changed(changes: Changes) -> [Record; 8] {
    let mut records = sample();
    for (at, word, number) in changes {
        if let Some(cell) = records
            .get_mut(*at)
            .and_then(|record| record.get_mut(*word))
        {
            *cell = *number;
        }
    }
    records
}

// The byte of a file with this index: words low byte first, and zeros after the records.
fn byte_at(records: &[Record], index: usize) -> u8 {
    records.get(index / 80).map_or(0, |record| {
        record[index / 4 % 20].to_le_bytes()[index % 4]
    })
}

// Fills the place with the bytes of the records, and then zeros.
fn put_file(records: &[Record], place: &mut [u8]) {
    for (index, byte) in place.iter_mut().enumerate() {
        *byte = byte_at(records, index);
    }
}

fn told(fault: FileFault) -> (u8, usize, usize, Layer) {
    let Refusal {
        number,
        at,
        place,
        layer,
    } = fault.refusal();
    (number, at, place, layer)
}

fn answer_to(bytes: &[u8]) -> Answer {
    read(bytes).err().map(told)
}
