// The limits of the tables and of what is decoded from them. Each stands here alone, and definitions and code cite it.

/// The greatest number of a column of one octet: TYPE, STYPE, DFHSIZE, PTC, DECIM, NBCHCK.
pub const OCTET_MOST: u64 = 255;

/// The greatest number of a column of two octets: APID, POS, PFC, GRPSIZE, FIXREP, NBOCC, LGOCC.
pub const WORD_MOST: u64 = 65_535;

/// The greatest SPID, and the greatest PID of a parameter.
pub const ID_MOST: u64 = 4_294_967_295;

/// The greatest WIDTH of a parameter in a structure, in bits.
pub const WIDTH_MOST: u64 = 999_999;

/// The greatest TPSD, which names a structure.
pub const TPSD_MOST: u64 = 2_147_483_647;

/// The most bits of a discriminant.
pub const DISCRIMINANT_BITS: u64 = 64;

/// The greatest value of a discriminant.
pub const DISCRIMINANT_MOST: u64 = 18_446_744_073_709_551_615;

/// The last octet of the longest packet, counted from 0 (CCSDS 133.0-B, packet length).
pub const OCTET_LAST: u64 = 65_541;

/// The last bit of an octet, counted from 0.
pub const BIT_LAST: u64 = 7;

/// How far back a row of a structure moves the walk at most: the bits of the longest packet.
pub const OFFSET_LEAST: i128 = -524_336;

/// How far ahead a row of a structure moves the walk at most: the bits of the longest packet.
pub const OFFSET_MOST: i128 = 524_336;

/// The least raw number, -2^63.
pub const RAW_LEAST: i128 = -9_223_372_036_854_775_808;

/// The greatest raw number, 2^64 - 1.
pub const RAW_MOST: i128 = 18_446_744_073_709_551_615;

/// The most octets of a name.
pub const NAME_SIZE: usize = 32;

/// The most octets of a text.
pub const TEXT_SIZE: usize = 64;

/// The most octets of a table's text.
pub const TABLE_MOST: usize = 67_108_864;

/// The most octets of a row's line.
pub const ROW_MOST: u16 = 4_096;

/// The most rows of a table that is read.
pub const ROWS_MOST: u32 = 100_000;

/// The most rows of a table that stands in memory.
pub const HELD_MOST: usize = 1_000_000_000;

/// The most values of a packet.
pub const MOST_VALUES: u32 = 8_192;

/// What the magnitude of a step of a calculation may not reach, 10^37.
pub const STEP_BOUND: u128 = 10_000_000_000_000_000_000_000_000_000_000_000_000;

/// What the magnitude of a calculation's result may not reach, 10^36.
pub const RESULT_BOUND: u128 = 1_000_000_000_000_000_000_000_000_000_000_000_000;
