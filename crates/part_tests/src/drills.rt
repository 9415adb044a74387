// Generated feeds and tables, and the counts of what is printed of them.
use mib_model::{Kind, PidRow};
use std::test::Fail;
use tm_drill::{COUNTED_MOST, Counter, PACKETS, drill_feed, drill_tables};
use tm_io::{Sink, write_all};

#[test]
fn a_feed_has_the_packets_of_its_seed(rt: HostRuntime) -> Result<(), Fail> {
    let feed = drill_feed(rt.alloc(), 0)?;
    assert_eq!(rt; feed.len(), 14 * PACKETS as usize);
    assert!(rt;
        feed.starts_with(
            b"\x08\x6B\xC0\x00\x00\x07\x10\x03\x19\x00\xEE\x11\x78\x22\x08\x67\xC0\x01"
        )
    );
    assert!(rt; feed.ends_with(b"\x09\x2C\xCE\x1F\x00\x07\x10\x03\x19\x00\x54\x52\x07\x9E"));
    Ok(())
}

#[test]
fn the_tables_have_their_rows(rt: HostRuntime) -> Result<(), Fail> {
    let book = drill_tables(rt.alloc())?;
    assert_eq!(rt; book.count(Kind::Pcf), 16);
    assert_eq!(rt; book.count(Kind::Plf), 16);
    assert_eq!(rt; book.count(Kind::Cap), 2);
    let last = PidRow {
        service: 3,
        subtype: 25,
        apid: 107,
        pi1_val: 0,
        pi2_val: 0,
        spid: 8,
        tpsd: -1,
        dfhsize: 0,
    };
    assert!(rt; book.pid().ends_with(&[last]));
    Ok(())
}

#[test]
fn lines_are_counted_once_they_end(rt: HostRuntime) -> Result<(), Fail> {
    let mut counter = Counter::new(rt.alloc());
    let first =
        b"PKT 1 APID 100 COUNT 0 TYPE 3/25 SPID 1\n  D0 7 = 0\nPKT 2 APID 101 COUNT 1 TYPE 3/25 SPID 8\n  ALARM D14 S";
    let second =
        b"OFT\nPKT 3 APID 300 COUNT 2 TYPE 3/25 UNKNOWN\n  CLEAR D14\nPKT 4 APID 100 COUNT 3 TYPE 3/25 SPID 1";
    assert!(rt; write_all(&mut counter, first).is_ok());
    assert!(rt; write_all(&mut counter, second).is_ok());
    assert!(rt; counter.flush().is_ok());
    assert_eq!(rt;
        counter.counts().summary(rt.alloc())?.as_slice(),
        b"SPID 1 COUNT 1\nSPID 2 COUNT 0\nSPID 3 COUNT 0\nSPID 4 COUNT 0\nSPID 5 COUNT 0\nSPID 6 COUNT 0\nSPID 7 COUNT 0\nSPID 8 COUNT 1\nUNKNOWN 1\nALARMS 1\nCLEARS 1\n".as_slice()
    );
    Ok(())
}

#[test]
fn a_line_that_is_too_long_is_a_fault(rt: HostRuntime) -> Result<(), Fail> {
    let mut counter = Counter::new(rt.alloc());
    let line = [b'x'; COUNTED_MOST];
    assert!(rt; write_all(&mut counter, &line).is_ok());
    assert!(rt; write_all(&mut counter, b"x").is_err());
    assert!(rt; write_all(&mut counter, b"\n").is_ok());
    Ok(())
}
