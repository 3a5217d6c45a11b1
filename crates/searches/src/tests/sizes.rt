// How much memory a search takes.
use search::search::Search;
use squares::least_squares::LeastSquares;

// All that a search holds besides its family.
#[test]
fn a_search_is_small(rt: HostRuntime) {
    let whole = size_of::<Search<LeastSquares>>();
    let family = size_of::<LeastSquares>();
    assert!(rt; family < whole && whole - family < 512);
}
