// Boards whose objects don't fail.
use crate::objects::{BoardObjects, shelf};
use page_texts::{BoardCode, BoardInput};
use run_model::Misuse;
use std::test::Fail;

const FIRST: &[u8] = b"PAGE 1 EDITION 1\n  T1 2000 -\n  NOPE - -\n";

const SIXTH: &[u8] = b"PAGE 6 EDITION 1\n  T1 2000 SOFT\n  NOPE - -\n";

const SEVENTH: &[u8] = b"PAGE 7 EDITION 1\n  T1 500 -\n  NOPE - -\n";

const VALUES: [u16; 7] = [2000, 2000, 500, 2000, 2000, 2000, 500];

#[test]
fn the_last_page_is_that_of_the_last_packet(rt: HostRuntime) -> Result<(), Fail> {
    let alloc = rt.alloc();
    for (count, workers, last) in [(1, "1", FIRST), (6, "2", SIXTH), (7, "4", SEVENTH)] {
        let mut run = BoardObjects::new(alloc, &VALUES[..count])?;
        let words = ["board", "mib", "feed", "desk", "page", "--workers", workers];
        let end = run.board(&rt, alloc, &words)?;
        assert_eq!(rt; end, (BoardCode::Ok, true), "{count} by {workers}");
        assert!(rt; run.screen.handed().ends_with(last), "{count} by {workers}");
    }
    Ok(())
}

#[test]
fn a_page_has_the_edition_of_its_packet(rt: HostRuntime) -> Result<(), Fail> {
    let alloc = rt.alloc();
    let mut run = BoardObjects::new(alloc, &[2000, 2000])?;
    let script = b"put ocf\tT1\t1\t\tU\nsave\nuse 2 from 2\ngo\n";
    run.desk = shelf(alloc, "desk", script, &[])?;
    let end = run.board(&rt, alloc, &["board", "mib", "feed", "desk", "page"])?;
    assert_eq!(rt; end, (BoardCode::Ok, true));
    assert_eq!(rt;
        run.replies.handed(),
        b"REPLACED\nSAVED 2 PLANS 1\nUSED 2 FROM 2\nGO\n".as_slice()
    );
    assert!(rt;
        run.screen
            .handed()
            .ends_with(b"PAGE 2 EDITION 2\n  T1 2000 SOFT\n  NOPE - -\n")
    );
    Ok(())
}

#[test]
fn a_run_without_packets_shows_no_page(rt: HostRuntime) -> Result<(), Fail> {
    let alloc = rt.alloc();
    let mut run = BoardObjects::new(alloc, &[])?;
    let end = run.board(&rt, alloc, &["board", "mib", "feed", "desk", "page"])?;
    assert_eq!(rt; end, (BoardCode::Ok, true));
    assert!(rt; run.screen.bytes().is_empty());
    Ok(())
}

#[test]
fn wrong_words_and_inputs_that_are_not_there_open_no_run(rt: HostRuntime) -> Result<(), Fail> {
    let alloc = rt.alloc();
    let cases: [(&[&str], BoardCode); 8] = [
        (&[], BoardCode::Usage(Misuse::Command)),
        (
            &["live", "mib", "feed", "desk"],
            BoardCode::Usage(Misuse::Command),
        ),
        (
            &["board", "mib", "feed", "desk"],
            BoardCode::Usage(Misuse::Words),
        ),
        (
            &["board", "mib", "-", "desk", "-"],
            BoardCode::Usage(Misuse::Words),
        ),
        (
            &["board", "mib", "feed", "desk", "page", "--workers", "17"],
            BoardCode::Usage(Misuse::Words),
        ),
        (
            &["board", "mib", "none", "desk", "none"],
            BoardCode::NoFile(BoardInput::Feed),
        ),
        (
            &["board", "mib", "feed", "none", "none"],
            BoardCode::NoFile(BoardInput::Desk),
        ),
        (
            &["board", "mib", "feed", "desk", "none"],
            BoardCode::NoFile(BoardInput::Page),
        ),
    ];
    for (words, code) in cases {
        let mut run = BoardObjects::new(alloc, &VALUES)?;
        assert_eq!(rt; run.board(&rt, alloc, words)?, (code, false));
        assert!(rt; run.out.bytes().is_empty() && run.screen.bytes().is_empty());
    }
    Ok(())
}

#[test]
fn the_first_wrong_line_of_a_page_is_told(rt: HostRuntime) -> Result<(), Fail> {
    let alloc = rt.alloc();
    let cases: [(&[u8], u32); 3] = [
        (b"T1\nT1\n", 2),
        (b"\r\nT1\n\nA B\nT1\n", 2),
        (b"T1\nNOPE\n\x80", 3),
    ];
    for (page, line) in cases {
        let mut run = BoardObjects::new(alloc, &VALUES)?;
        run.page = shelf(alloc, "page", page, &[])?;
        let end = run.board(&rt, alloc, &["board", "mib", "feed", "desk", "page"])?;
        assert_eq!(rt; end, (BoardCode::BadPage { line }, false));
        assert!(rt; run.out.bytes().is_empty() && run.screen.bytes().is_empty());
    }
    Ok(())
}
