// Numbers at any bit of a packet, and values by their types.
use bit_field::{Endian, Order, Sort, number, shape_of, take, unsigned};
use mib_model::Name;
use std::process::Abort;
use std::test::Fail;

// 24 octets that were drawn at random.
const PACKET: [u8; 24] = [
    165, 77, 202, 24, 37, 48, 187, 29, 109, 19, 44, 222, 214, 35, 123, 46, 217, 30, 63, 114, 31,
    203, 25, 113,
];

fn has(rt: &impl Abort, at: u64, width: u8, value: Option<u64>) {
    assert!(rt; width <= 64);
    assert_eq!(rt; unsigned(&PACKET, at, width), value);
}

#[test]
fn fields_have_the_numbers_of_an_outside_program(rt: HostRuntime) {
    has(&rt, 0, 8, Some(165));
    has(&rt, 5, 64, Some(12_229_879_950_346_773_421));
    has(&rt, 7, 64, Some(12_026_031_653_967_990_454));
    has(&rt, 121, 64, Some(6_751_525_307_074_713_138));
    has(&rt, 128, 64, Some(15_645_011_914_923_907_441));
    has(&rt, 129, 64, None);
    has(&rt, 192, 0, Some(0));
    has(&rt, 193, 0, None);
    has(&rt, u64::MAX, 64, None);
}

fn takes(rt: &impl Abort, ptc: u8, pfc: u16, endian: Endian, at: u64, raw: Option<i128>) {
    let shape = shape_of(ptc, pfc, endian).expect(rt, "a shape");
    let name = Name::new(b"P1").expect(rt, "a name");
    assert!(rt; shape.sort() != Sort::Deduced);
    assert_eq!(rt; take(&PACKET, at, name, shape).map(|value| value.raw), raw);
}

#[test]
fn values_are_taken_by_the_order_of_their_shape(rt: HostRuntime) {
    takes(&rt, 3, 4, Endian::L, 8, Some(77));
    takes(&rt, 3, 12, Endian::B, 8, Some(19_914));
    takes(&rt, 3, 12, Endian::L, 8, Some(51_789));
    takes(&rt, 3, 13, Endian::L, 0, Some(13_258_149));
    takes(&rt, 3, 14, Endian::L, 0, Some(415_911_333));
    takes(&rt, 4, 14, Endian::L, 4, Some(-2_103_321_516));
    takes(&rt, 6, 40, Endian::L, 0, Some(159_329_701_285));
    takes(&rt, 3, 15, Endian::L, 0, Some(52_935_887_834_533));
    takes(&rt, 6, 56, Endian::L, 0, Some(52_688_756_532_727_205));
    takes(&rt, 3, 16, Endian::L, 0, Some(2_142_358_983_632_637_349));
    takes(&rt, 4, 16, Endian::B, 0, Some(-6_535_345_279_192_745_187));
    takes(&rt, 3, 12, Endian::B, 177, None);
    takes(&rt, 8, 24, Endian::B, 0, Some(0));
    takes(&rt, 8, 25, Endian::B, 0, None);
}

#[test]
fn real_numbers_are_read_in_either_order(rt: HostRuntime) {
    let big = shape_of(5, 4, Endian::B).expect(&rt, "a real");
    let little = shape_of(5, 4, Endian::L).expect(&rt, "a real");
    assert!(rt; big.width() <= 64);
    assert!(rt; little.width() <= 64);
    assert_eq!(rt; number(&PACKET, 0, big), Some(0xA54D_CA18_2530));
    assert_eq!(rt; number(&PACKET, 0, little), Some(0x3025_18CA_4DA5));
    assert_eq!(rt; number(&PACKET, 145, little), None);
}

#[test]
fn shapes_are_those_of_the_table_of_types(rt: HostRuntime) {
    let time = shape_of(9, 18, Endian::L).expect(&rt, "a time");
    assert_eq!(rt; time.sort(), Sort::Cuc { coarse: 4, fine: 3 });
    assert_eq!(rt; time.width(), 56);
    assert_eq!(rt; time.order(), Order::Big);
    for (ptc, pfc, endian) in [(3, 3, Endian::L), (3, 17, Endian::B), (12, 0, Endian::B)] {
        assert!(rt; shape_of(ptc, pfc, endian).is_none());
    }
}
