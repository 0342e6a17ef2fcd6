// The header: the table of its rows, and its values read. FORMAT, "The record", "Editions". A header is its list of values in the
// table's order: the rows that every edition has, then those of its own.
#![tactic(auto)]

ghost use Rattle.std.specs.Prelude.{◌≡◌};
ghost use Rattle.std.proofs.Common.{lit≤};
ghost use Rattle.fields.specs.Table.{read_all, all_digits_good};
ghost use Rattle.header_parts.specs.Parts.{placed, rows_read};
ghost use Rattle.header.specs.Format.{common, common1, common2, common3, common4, common5, own1985, own1992};
ghost use Rattle.header.specs.Edition.{edition_of, fields_of};

use fields::Field;
use header_parts::Part;

// The editions that a caller can name. Numbers, not an enum: each public call that names one promises an answer for any (25),
// and C hands over a number, as the value of an opening does; an enum would ask more of callers or be made anew in each call.
pub const EDITION_1985: u64 = 1985;

pub const EDITION_1992: u64 = 1992;

// The number of a header's values, in every edition.
pub const FIELD_COUNT: usize = 48;

// Each row: its word, its first bit, its width in bits, and whether the bits are decimal digits or a signed number. Time tags
// are in milliseconds of the day, frequencies in microhertz.
pub const CLOCK_ORIGIN: Field = Field(1, 1, 1, false, false);

pub const SESSION_START: Field = Field(1, 2, 1, false, false);

pub const COPY_ERROR: Field = Field(1, 3, 1, false, false);

pub const CONVERSION: Field = Field(1, 4, 1, false, false);

pub const COMPRESSION: Field = Field(1, 5, 4, false, false);

pub const TAPE_NUMBER: Field = Field(1, 9, 8, false, false);

pub const RECORD_NUMBER: Field = Field(2, 1, 16, false, false);

pub const LENGTH_WORDS: Field = Field(3, 1, 16, false, false);

pub const PRIME_FEA: Field = Field(4, 1, 8, false, false);

pub const SECONDARY_FEA: Field = Field(4, 9, 8, false, false);

pub const SPACECRAFT: Field = Field(5, 1, 8, false, false);

pub const SPC: Field = Field(5, 9, 8, false, false);

pub const YEAR: Field = Field(6, 1, 7, false, false);

pub const DAY: Field = Field(6, 8, 9, false, false);

pub const TIME_TAG: Field = Field(7, 6, 27, false, false);

pub const PREDICT_0: Field = Field(9, 1, 8, false, false);

pub const PREDICT_1: Field = Field(9, 9, 8, false, false);

pub const PREDICT_2: Field = Field(10, 1, 8, false, false);

pub const PREDICT_3: Field = Field(10, 9, 8, false, false);

pub const PREDICT_4: Field = Field(11, 1, 8, false, false);

pub const PREDICT_5: Field = Field(11, 9, 8, false, false);

pub const PREDICT_6: Field = Field(12, 1, 8, false, false);

pub const PREDICT_7: Field = Field(12, 9, 8, false, false);

pub const PREDICT_8: Field = Field(13, 1, 8, false, false);

pub const PREDICT_9: Field = Field(13, 9, 8, false, false);

pub const STATUS: Field = Field(14, 1, 8, false, false);

pub const READBACK: Field = Field(14, 9, 56, true, false);

pub const READBACK_TAG: Field = Field(18, 6, 27, false, false);

pub const CALCULATED: Field = Field(20, 9, 56, true, false);

pub const UPDATE_TAG: Field = Field(24, 6, 27, false, false);

pub const FREQUENCY_RATE_DIGITS: Field = Field(26, 9, 20, true, false);

pub const FREQUENCY_RATE_POWER: Field = Field(27, 13, 3, false, false);

pub const FREQUENCY_RATE_SIGN: Field = Field(27, 16, 1, false, false);

pub const PHASE_1: Field = Field(28, 1, 48, false, false);

pub const PHASE_2: Field = Field(31, 1, 48, false, false);

pub const SELECTOR_1: Field = Field(34, 1, 4, false, false);

pub const SELECTOR_2: Field = Field(34, 5, 4, false, false);

pub const SELECTOR_3: Field = Field(34, 9, 4, false, false);

pub const SELECTOR_4: Field = Field(34, 13, 4, false, false);

pub const COUNTER_TAG: Field = Field(35, 6, 27, false, false);

// The rows of 1985 alone. It has two fields fewer than a header has values.
pub const FILTER: Field = Field(24, 1, 4, false, false);

pub const SAMPLE_RATE_1985: Field = Field(37, 1, 16, false, false);

pub const SYNC_1985: Field = Field(38, 1, 16, false, false);

pub const WORD_39: Field = Field(39, 1, 16, false, false);

pub const REGISTER_1: Field = Field(40, 1, 8, false, false);

pub const REGISTER_2: Field = Field(40, 9, 8, false, false);

pub const EMPTY_1985: Field = Field(41, 1, 0, false, false);

// The rows of 1992 alone.
pub const RF_CONFIGURATION: Field = Field(26, 1, 2, false, false);

pub const SAMPLE_RATE_1992: Field = Field(80, 1, 16, false, false);

pub const SYNC_1992: Field = Field(81, 1, 16, false, false);

pub const RF_CONFIGURATION_REPORTED: Field = Field(26, 3, 2, false, false);

pub const TIME_OFFSET_DAYS: Field = Field(37, 1, 9, false, false);

pub const TIME_OFFSET_SIGN: Field = Field(37, 15, 1, false, false);

pub const TIME_OFFSET_SECONDS: Field = Field(37, 16, 17, false, false);

pub const FREQUENCY_OFFSET: Field = Field(39, 1, 48, false, true);

// The places, in the list of values, of those that a writer judges.
pub const AT_CLOCK_ORIGIN: usize = 0;

pub const AT_CONVERSION: usize = 3;

pub const AT_COMPRESSION: usize = 4;

pub const AT_TAPE_NUMBER: usize = 5;

pub const AT_RECORD_NUMBER: usize = 6;

pub const AT_LENGTH_WORDS: usize = 7;

pub const AT_YEAR: usize = 12;

pub const AT_DAY: usize = 13;

pub const AT_TIME_TAG: usize = 14;

pub const AT_READBACK: usize = 26;

pub const AT_READBACK_TAG: usize = 27;

pub const AT_CALCULATED: usize = 28;

pub const AT_FREQUENCY_RATE_DIGITS: usize = 30;

pub const AT_SAMPLE_RATE: usize = 41;

pub const AT_SYNC: usize = 42;

// The parts of the table: the rows that every edition has, eight a part in the order of the words, and each edition's own.
// A row's place is named here alone: who reads, writes or judges rows takes them from their part.
pub struct Common1;

impl Part for Common1 {
    const ROWS: [Field; 8] = [
        CLOCK_ORIGIN,
        SESSION_START,
        COPY_ERROR,
        CONVERSION,
        COMPRESSION,
        TAPE_NUMBER,
        RECORD_NUMBER,
        LENGTH_WORDS,
    ];

    ghost ROWS = { common1 };

    const AT: u16 = 0;

    ghost AT = { 0 };

    ghost within = { lit≤ tt };
}

pub struct Common2;

impl Part for Common2 {
    const ROWS: [Field; 8] = [
        PRIME_FEA,
        SECONDARY_FEA,
        SPACECRAFT,
        SPC,
        YEAR,
        DAY,
        TIME_TAG,
        PREDICT_0,
    ];

    ghost ROWS = { common2 };

    const AT: u16 = 8;

    ghost AT = { 8 };

    ghost within = { lit≤ tt };
}

pub struct Common3;

impl Part for Common3 {
    const ROWS: [Field; 8] = [
        PREDICT_1, PREDICT_2, PREDICT_3, PREDICT_4, PREDICT_5, PREDICT_6, PREDICT_7, PREDICT_8,
    ];

    ghost ROWS = { common3 };

    const AT: u16 = 16;

    ghost AT = { 16 };

    ghost within = { lit≤ tt };
}

pub struct Common4;

impl Part for Common4 {
    const ROWS: [Field; 8] = [
        PREDICT_9,
        STATUS,
        READBACK,
        READBACK_TAG,
        CALCULATED,
        UPDATE_TAG,
        FREQUENCY_RATE_DIGITS,
        FREQUENCY_RATE_POWER,
    ];

    ghost ROWS = { common4 };

    const AT: u16 = 24;

    ghost AT = { 24 };

    ghost within = { lit≤ tt };
}

pub struct Common5;

impl Part for Common5 {
    const ROWS: [Field; 8] = [
        FREQUENCY_RATE_SIGN,
        PHASE_1,
        PHASE_2,
        SELECTOR_1,
        SELECTOR_2,
        SELECTOR_3,
        SELECTOR_4,
        COUNTER_TAG,
    ];

    ghost ROWS = { common5 };

    const AT: u16 = 32;

    ghost AT = { 32 };

    ghost within = { lit≤ tt };
}

pub struct Own1985;

impl Part for Own1985 {
    const ROWS: [Field; 8] = [
        FILTER,
        SAMPLE_RATE_1985,
        SYNC_1985,
        WORD_39,
        REGISTER_1,
        REGISTER_2,
        EMPTY_1985,
        EMPTY_1985,
    ];

    ghost ROWS = { own1985 };

    const AT: u16 = 40;

    ghost AT = { 40 };

    ghost within = { lit≤ tt };
}

pub struct Own1992;

impl Part for Own1992 {
    const ROWS: [Field; 8] = [
        RF_CONFIGURATION,
        SAMPLE_RATE_1992,
        SYNC_1992,
        RF_CONFIGURATION_REPORTED,
        TIME_OFFSET_DAYS,
        TIME_OFFSET_SIGN,
        TIME_OFFSET_SECONDS,
        FREQUENCY_OFFSET,
    ];

    ghost ROWS = { own1992 };

    const AT: u16 = 40;

    ghost AT = { 40 };

    ghost within = { lit≤ tt };
}

// The values of a part's rows go to their places in the list of values. Why each row is named: `Part`.
fn read_part<P: Part>(bytes: &[u8], values: &mut [u64])
    ensures { values.new ≡ placed 0 8 P.AT (rows_read P.ROWS bytes.now) values.old }
{
    let rows = P::ROWS;
    header_parts::place(
        values,
        P::AT,
        [
            fields::read_field(bytes, rows[0]),
            fields::read_field(bytes, rows[1]),
            fields::read_field(bytes, rows[2]),
            fields::read_field(bytes, rows[3]),
            fields::read_field(bytes, rows[4]),
            fields::read_field(bytes, rows[5]),
            fields::read_field(bytes, rows[6]),
            fields::read_field(bytes, rows[7]),
        ],
    );
}

// Those of an edition's own rows go to theirs.
fn read_own(edition: u64, bytes: &[u8], values: &mut [u64])
    ensures { values.new ≡ placed 0 8 40 (read_all (edition_of edition).own bytes.now) values.old }
{
    if edition == EDITION_1992 {
        read_part::<Own1992>(bytes, values);
    } else {
        read_part::<Own1985>(bytes, values);
    }
}

// The values of an edition's fields go into the array lent, in the table's order.
pub fn read_into(edition: u64, bytes: &[u8], values: &mut [u64; FIELD_COUNT])
    ensures { values.new ≡ read_all (fields_of edition) bytes.now }
{
    read_part::<Common1>(bytes, values);
    read_part::<Common2>(bytes, values);
    read_part::<Common3>(bytes, values);
    read_part::<Common4>(bytes, values);
    read_part::<Common5>(bytes, values);
    read_own(edition, bytes, values);
}

// The values of an edition's fields, in the table's order.
pub fn read_values(edition: u64, bytes: &[u8]) -> [u64; FIELD_COUNT]
    ensures { result ≡ read_all (fields_of edition) bytes.now }
{
    let mut values = [0u64; FIELD_COUNT];
    read_into(edition, bytes, &mut values);
    values
}

// Whether every digit of the decimal fields is at most 9: they are all among the common rows.
pub fn all_digits_good(bytes: &[u8]) -> bool
    ensures { result ≡ all_digits_good common bytes.now }
{
    let readback = fields::good_digits(bytes, READBACK);
    let calculated = fields::good_digits(bytes, CALCULATED);
    let rate = fields::good_digits(bytes, FREQUENCY_RATE_DIGITS);
    readback & (calculated & rate)
}
