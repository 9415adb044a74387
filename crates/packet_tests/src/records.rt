// Lines of values.
use bit_field::{shape_of, take};
use mib_model::{Cal, Endian, Eng, Name, Text, Value};
use record_text::{Lines, Tail, value_line};
use std::process::Abort;
use std::test::Fail;

const PACKET: [u8; 27] = [
    0x08, 0x64, 0xC0, 0x00, 0x00, 0x14, 0x10, 0x03, 0x19, 0x00, 0x3F, 0x80, 0x00, 0x00, 0x41, 0x22,
    0x0A, 0xBE, 0xEF, 0x00, 0x02, 0x00, 0x00, 0x03, 0xE8, 0x05, 0x80,
];

fn named(rt: &impl Abort, octets: &[u8]) -> Name {
    Name::new(octets).expect(rt, "a name")
}

fn taken(rt: &impl Abort, name: &[u8], ptc: u8, pfc: u16, endian: Endian, at: u64) -> Value {
    let shape = shape_of(ptc, pfc, endian).expect(rt, "a shape");
    take(&PACKET, at, named(rt, name), shape).expect(rt, "a value")
}

fn shows(rt: &impl Abort, value: &Value, tail: &Tail<'_>, out: &mut Lines, line: &[u8]) {
    assert!(rt; value.at < 1000);
    assert!(rt; value.at + u64::from(value.shape.width()) <= 216);
    out.clear();
    value_line(value, &PACKET, tail, out);
    assert_eq!(rt; out.bytes(), line);
}

#[test]
fn values_are_shown_by_their_types(rt: HostRuntime) -> Result<(), Fail> {
    let cases = [
        (5, 1, Endian::B, 80, b"  V REAL:3F800000\n".as_slice()),
        (8, 3, Endian::B, 112, b"  V \"A\\x22\\x0A\"\n"),
        (7, 2, Endian::B, 136, b"  V HEX:BEEF\n"),
        (9, 1, Endian::B, 152, b"  V TIME:2:1000\n"),
        (10, 4, Endian::B, 200, b"  V TIME:5:128\n"),
        (5, 1, Endian::L, 80, b"  V REAL:0000803F\n"),
        (5, 4, Endian::B, 80, b"  V REAL:3F8000004122\n"),
        (8, 2, Endian::B, 116, b"  V \"\\x12 \"\n"),
        (7, 1, Endian::B, 140, b"  V HEX:EE\n"),
        (9, 2, Endian::B, 152, b"  V TIME:2:1000:1408\n"),
        (9, 3, Endian::B, 200, b"  V TIME:5\n"),
        (9, 18, Endian::B, 152, b"  V TIME:131072:256005\n"),
        (3, 12, Endian::B, 136, b"  V 48879\n"),
        (4, 12, Endian::B, 136, b"  V -16657\n"),
    ];
    let mut out = Lines::new(rt.alloc())?;
    for (ptc, pfc, endian, at, line) in cases {
        let value = taken(&rt, b"V", ptc, pfc, endian, at);
        shows(&rt, &value, &Tail::Plain, &mut out, line);
    }
    Ok(())
}

fn tells<'a>(rt: &impl Abort, cal: Cal<'a>, out: &mut Lines, line: &[u8]) {
    let value = taken(rt, b"V", 3, 4, Endian::B, 72);
    shows(rt, &value, &Tail::Given { cal, decimals: 2 }, out, line);
}

#[test]
fn tails_tell_what_a_calibration_gave(rt: HostRuntime) -> Result<(), Fail> {
    let text = Text::new(b"a\\b").expect(&rt, "a text");
    let mut out = Lines::new(rt.alloc())?;
    let number = Eng {
        count: -1_504_999_999_999,
    };
    tells(&rt, Cal::Value(number), &mut out, b"  V 0 = -1.50\n");
    tells(&rt, Cal::Text(&text), &mut out, b"  V 0 = \"a\\x5Cb\"\n");
    tells(&rt, Cal::NoText, &mut out, b"  V 0 ! NOTEXT\n");
    tells(&rt, Cal::Outside, &mut out, b"  V 0 ! OUTSIDE\n");
    tells(&rt, Cal::Over, &mut out, b"  V 0 ! OVER\n");
    tells(&rt, Cal::LogCurve, &mut out, b"  V 0 ! LOGCURVE\n");
    tells(&rt, Cal::RealCurve, &mut out, b"  V 0 ! REALCURVE\n");
    let value = taken(&rt, b"V", 3, 4, Endian::B, 72);
    shows(&rt, &value, &Tail::Invalid, &mut out, b"  V 0 ? INVALID\n");
    Ok(())
}
