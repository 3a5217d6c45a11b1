// What is written of a draft, and that it reads back.
use super::{Changes, LIST, Record, changed, put_file};
use file::contents::{AnyDraft, Contents};
use file::reading::read;
use file::writing::write;
use problem::cost::Cost;
use problem::draft::Draft;
use std::process::Abort;
use std::test::Fail;

/// The sample, and the same at the rates 2 and 1 with a gap.
static DRAFTS: [Changes; 2] = [&[], &[(0, 2, 2), (0, 4, 1_000_000), (0, 5, 2), (0, 6, -1)]];

// What a file holds that is accepted.
fn contents_of(bytes: &[u8]) -> Result<Contents, Fail> {
    read(bytes).map_err(|_| Fail::new("the file was refused"))
}

// The draft has the numbers of these records.
fn check_draft<C: Cost>(
    rt: &impl Abort,
    draft: &Draft<C>,
    records: &[Record; 8],
) -> Result<(), Fail> {
    assert_eq!(rt; &draft.header_list()[..], &records[0][3..13]);
    assert_eq!(rt; draft.row_count(), 3);
    for (row, record) in records[1..4].iter().enumerate() {
        assert_eq!(rt; &draft.row_list(row)[..], &record[1..12]);
    }
    Ok(())
}

// The first four records read as a draft with these numbers and no calls.
fn check_read(rt: &impl Abort, place: &[u8; 400], records: &[Record; 8]) -> Result<(), Fail> {
    let contents = contents_of(&place[..320])?;
    assert_eq!(rt; contents.calls.as_slice().len(), 0);
    match &contents.draft {
        AnyDraft::Squares(draft) => {
            assert_eq!(rt; records[0][2], 1);
            check_draft(rt, draft, records)
        }
        AnyDraft::Linear(draft) => {
            assert_eq!(rt; records[0][2], 2);
            check_draft(rt, draft, records)
        }
    }
}

// Five records of room for four.
fn check_written(rt: &impl Abort, records: &mut [Record; 8]) -> Result<(), Fail> {
    let mut bytes = [0; 640];
    put_file(records, &mut bytes);
    let contents = contents_of(&bytes)?;
    let mut place = [7; 400];
    assert!(rt; write(&contents.draft, &mut place).is_ok());
    let mut expected = [7; 400];
    records[0][1] = 0;
    put_file(records, &mut expected[..320]);
    assert!(rt; place == expected);
    check_read(rt, &place, records)
}

#[test]
fn drafts_are_written_and_read_back(rt: HostRuntime) -> Result<(), Fail> {
    for changes in &DRAFTS {
        check_written(&rt, &mut changed(changes))?;
    }
    Ok(())
}

// One byte less than four records.
#[test]
fn a_short_place(rt: HostRuntime) -> Result<(), Fail> {
    let mut bytes = [0; 640];
    put_file(&changed(&[]), &mut bytes);
    let contents = contents_of(&bytes)?;
    let mut short = [7; 319];
    let Err(fault) = write(&contents.draft, &mut short) else {
        return Err(Fail::new("the place was taken"));
    };
    let denial = fault.denial();
    assert_eq!(rt; (denial.number, denial.place, denial.layer), (1, 0, LIST));
    assert!(rt; short == [7; 319]);
    Ok(())
}
