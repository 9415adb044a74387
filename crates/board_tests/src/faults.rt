// Boards with an object that fails.
use crate::objects::{BoardObjects, PAGE, packets, shelf, sink};
use page_texts::BoardCode;
use std::alloc::Global;
use std::test::Fail;

const RECORDS: &[u8] =
    b"PKT 1 APID 100 COUNT 0 TYPE 3/25 SPID 4001\n  T1 500\nPKT 2 APID 100 COUNT 0 TYPE 3/25 SPID 4001\n  T1 500\nCUT 7\n";

const WORDS: [&str; 5] = ["board", "mib", "feed", "desk", "page"];

// So many octets of three packets, whose pages come to a screen that fails here.
fn cut(alloc: Global, length: usize, place: u64) -> Result<BoardObjects, Fail> {
    let mut run = BoardObjects::new(alloc, &[])?;
    let mut octets = packets(alloc, &[500, 500, 500])?;
    octets.truncate(length);
    run.feed = shelf(alloc, "feed", &octets, &[])?;
    run.screen = sink(alloc, &[place])?;
    Ok(run)
}

#[test]
fn a_screen_that_fails_leaves_the_records_whole(rt: HostRuntime) -> Result<(), Fail> {
    let alloc = rt.alloc();
    let whole = &RECORDS[..104];
    for (length, place, records) in [(24, 0, whole), (31, 0, RECORDS), (31, 17, RECORDS)] {
        let mut run = cut(alloc, length, place)?;
        assert_eq!(rt;
            run.board(&rt, alloc, &WORDS)?,
            (BoardCode::ScreenFault, true)
        );
        assert_eq!(rt; run.out.handed(), records);
        assert_eq!(rt; run.screen.bytes().len() as u64, place);
    }
    let mut run = cut(alloc, 31, 1000)?;
    assert_eq!(rt; run.board(&rt, alloc, &WORDS)?, (BoardCode::Cut(7), true));
    assert!(rt;
        run.screen
            .handed()
            .ends_with(b"PAGE 2 EDITION 1\n  T1 500 -\n  NOPE - -\n")
    );
    Ok(())
}

#[test]
fn a_fault_of_the_output_goes_before_one_of_the_screen(rt: HostRuntime) -> Result<(), Fail> {
    let alloc = rt.alloc();
    let mut run = cut(alloc, 31, 0)?;
    run.out = sink(alloc, &[60])?;
    assert_eq!(rt; run.board(&rt, alloc, &WORDS)?, (BoardCode::OutFault, true));
    assert_eq!(rt; run.out.bytes(), &RECORDS[..60]);
    Ok(())
}

#[test]
fn a_page_that_cannot_be_read_opens_no_run(rt: HostRuntime) -> Result<(), Fail> {
    let alloc = rt.alloc();
    for place in [0, 4, 8] {
        let mut run = BoardObjects::new(alloc, &[2000])?;
        run.page = shelf(alloc, "page", PAGE, &[place])?;
        assert_eq!(rt;
            run.board(&rt, alloc, &WORDS)?,
            (BoardCode::PageFault, false)
        );
        assert!(rt; run.out.bytes().is_empty() && run.screen.bytes().is_empty());
    }
    Ok(())
}
