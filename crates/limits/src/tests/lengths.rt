// Lists of every length.
use super::{LIST, answer_to};
use family::point::Point;
use family::proof::Proof;
use problem::cost::Squares;
use problem::draft::Draft;

// A list of another length is denied for its length, and its numbers, all of them faulty, are not judged.
#[test]
fn lengths(rt: HostRuntime) {
    let numbers = [-1_000_001; 18];
    let denied = Some((1, 0, LIST));
    for length in 0..19 {
        let list = &numbers[0..length];
        let mut draft = Draft::new(Squares);
        let right = [
            answer_to(Point::read(8, list)) != denied,
            answer_to(Proof::read(16, list)) != denied,
            answer_to(draft.header(list)) != denied,
            answer_to(draft.add_row(list)) != denied,
        ];
        assert_eq!(rt;
            right,
            [length == 9, length == 17, length == 10, length == 11]
        );
    }
}
