// Cases worked by hand that are run, not proved (FORMAT, "Cases worked by hand"): each line says what was asked and the refusal
// number, 0 for none. The others are proved in crate `worked_cases`.
#![tactic(auto)]

use answers::{Refusal, refusal_number};
use header::{EDITION_1985, EDITION_1992};
use index_model::{Opening, WIDTH};
use std::io;

// Bytes of the lister's case: 390 words.
const CASE_BYTES: usize = 780;

// A word of a record, counted from 1, gets its value.
fn set_word(bytes: &mut [u8], word: usize, value: u16) {
    if 1 <= word && word <= bytes.len() / 2 {
        bytes[2 * (word - 1)..2 * word].copy_from_slice(&value.to_be_bytes());
    }
}

// The lister's case: an accepted record of 390 words at 200 samples a second.
fn lister_case() -> [u8; CASE_BYTES] {
    let mut bytes = [0u8; CASE_BYTES];
    set_word(&mut bytes, 1, 0x8101);
    set_word(&mut bytes, 2, 0x0001);
    set_word(&mut bytes, 3, 0x0186);
    set_word(&mut bytes, 6, 0xAC18);
    set_word(&mut bytes, 7, 0x0293);
    set_word(&mut bytes, 8, 0x2E00);
    set_word(&mut bytes, 16, 0x4200);
    set_word(&mut bytes, 26, 0x0012);
    set_word(&mut bytes, 27, 0x3452);
    set_word(&mut bytes, 37, 0x00C8);
    set_word(&mut bytes, 38, 0xA55A);
    bytes
}

fn print_line(rt: &impl Print, asked: &str, number: u8) -> io::Result<()> {
    println!(rt; "{asked}{number}")
}

// The number, as a line has it; so in each function here that answers one.
fn refusal_of(edition: u64, bytes: &[u8]) -> u8 {
    refusal_number(record::judge(edition, bytes))
}

// A record of this date, read. Word 6 holds the year in its first seven bits and the day in the other nine.
fn refusal_read(date: u16) -> u8 {
    let mut bytes = lister_case();
    set_word(&mut bytes, 6, date);
    refusal_of(EDITION_1985, &bytes)
}

// A header of this date, written.
fn write_date(date: u16) -> Result<(), Refusal> {
    let mut bytes = lister_case();
    let mut values = record::read_header(EDITION_1985, &bytes)?;
    values[header::AT_YEAR] = u64::from(date / 512);
    values[header::AT_DAY] = u64::from(date % 512);
    record::write_header(EDITION_1985, &mut bytes, values)
}

fn print_date(rt: &impl Print, asked: &str, date: u16) -> io::Result<()> {
    print_line(rt, asked, refusal_read(date))?;
    print_line(rt, "  written: ", refusal_number(write_date(date)))
}

// At 200 samples a second two records fill a second: the refusals of the first, the second and the third that are inserted.
fn print_inserts(
    rt: &impl Print,
    o: Opening,
    rows: &mut [u32; 3 * WIDTH],
    seconds: &mut [u32; WIDTH],
) -> io::Result<()> {
    let mut bytes = lister_case();
    print_line(
        rt,
        "record 1 of a second: ",
        insert(o, &bytes, rows, seconds),
    )?;
    set_word(&mut bytes, 2, 2);
    print_line(
        rt,
        "record 2 of the second: ",
        insert(o, &bytes, rows, seconds),
    )?;
    set_word(&mut bytes, 2, 3);
    print_line(
        rt,
        "record 3 of the second: ",
        insert(o, &bytes, rows, seconds),
    )
}

fn insert(
    o: Opening,
    bytes: &[u8; CASE_BYTES],
    rows: &mut [u32; 3 * WIDTH],
    seconds: &mut [u32; WIDTH],
) -> u8 {
    refusal_number(index_update::insert(o, EDITION_1985, bytes, rows, seconds))
}

// The refusals of the calls after opening, with this value of an opening: record 1 and its second are those of `print_inserts`.
fn print_later(
    rt: &impl Print,
    o: Opening,
    rows: &mut [u32; 3 * WIDTH],
    seconds: &mut [u32; WIDTH],
) -> io::Result<()> {
    let bytes = lister_case();
    print_line(rt, "  insert: ", insert(o, &bytes, rows, seconds))?;
    print_line(
        rt,
        "  remove: ",
        refusal_number(index_update::remove(o, 1, rows, seconds)),
    )?;
    print_line(
        rt,
        "  query: ",
        refusal_number(index_query::query(o, 43_200, rows, seconds)),
    )?;
    print_line(
        rt,
        "  test: ",
        refusal_number(index_query::is_consistent(o, rows, seconds)),
    )
}

// The value of an opening, but for its date: day 366 of a year.
fn holding_day_366(o: Opening, year: u64) -> Opening {
    Opening {
        year,
        day: 366,
        ..o
    }
}

// A held day 366, in a year that has none and in one that has it but is not the records'.
fn print_held(
    rt: &impl Print,
    o: Opening,
    rows: &mut [u32; 3 * WIDTH],
    seconds: &mut [u32; WIDTH],
) -> io::Result<()> {
    println!(rt; "day 366 of year 86 held:")?;
    print_later(rt, holding_day_366(o, 86), rows, seconds)?;
    println!(rt; "day 366 of year 84 held:")?;
    print_later(rt, holding_day_366(o, 84), rows, seconds)
}

fn print_calls(
    rt: &impl Print,
    o: Opening,
    rows: &mut [u32; 3 * WIDTH],
    seconds: &mut [u32; WIDTH],
) -> io::Result<()> {
    print_inserts(rt, o, rows, seconds)?;
    print_held(rt, o, rows, seconds)
}

// An index of one second, from noon on, for the records 1 to 3.
fn fill_a_second(rt: &impl Print) -> io::Result<()> {
    let pattern = lister_case();
    let mut rows = [7u32; 3 * WIDTH];
    let mut seconds = [7u32; WIDTH];
    match index_open::open(
        EDITION_1985,
        &pattern,
        43_200,
        1,
        3,
        &mut rows,
        &mut seconds,
    ) {
        Ok(o) => print_calls(rt, o, &mut rows, &mut seconds),
        Err(refusal) => print_line(rt, "opening refused: ", u8::from(refusal)),
    }
}

// Bytes of the longest record of 1992: 2083 words.
const LONGEST_1992: usize = 4_166;

// A record of 1992 of this rate and length, with the lister's case's date and time; bytes past its length follow it.
fn case_1992(hz: u16, words: u16) -> [u8; LONGEST_1992] {
    let mut bytes = [0u8; LONGEST_1992];
    set_word(&mut bytes, 1, 0x9101);
    set_word(&mut bytes, 2, 0x0001);
    set_word(&mut bytes, 3, words);
    set_word(&mut bytes, 6, 0xAC18);
    set_word(&mut bytes, 7, 0x0293);
    set_word(&mut bytes, 8, 0x2E00);
    set_word(&mut bytes, 80, hz);
    set_word(&mut bytes, 81, 0xA55A);
    bytes
}

// The refusal of such a record, as one of an edition.
fn refusal_1992(edition: u64, hz: u16, words: u16) -> u8 {
    let bytes = case_1992(hz, words);
    let size = (2 * usize::from(words)).min(LONGEST_1992);
    refusal_of(edition, &bytes[0..size])
}

fn print_length(rt: &impl Print, hz: u16, words: u16) -> io::Result<()> {
    let number = refusal_1992(EDITION_1992, hz, words);
    println!(rt; "{hz} a second, {words} words: {number}")
}

// Table 1 of 1992: each rate, and the length in words of its record.
const LENGTHS_1992: [(u16, u16); 19] = [
    (50_000, 2083),
    (31_250, 1333),
    (25_000, 2083),
    (20_000, 2083),
    (15_625, 1333),
    (12_500, 1333),
    (10_000, 2083),
    (6_250, 1333),
    (5_000, 2083),
    (4_000, 2083),
    (3_125, 1333),
    (2_500, 1333),
    (2_000, 2083),
    (1_250, 1333),
    (1_000, 1083),
    (500, 583),
    (400, 483),
    (250, 333),
    (200, 283),
];

fn print_lengths(rt: &impl Print) -> io::Result<()> {
    for (hz, words) in LENGTHS_1992 {
        print_length(rt, hz, words)?;
    }
    Ok(())
}

// A record of each edition under the other and under none, one that is too short, and lengths of another line.
fn print_editions(rt: &impl Print) -> io::Result<()> {
    let of_1985 = lister_case();
    let of_1992 = case_1992(200, 283);
    print_line(
        rt,
        "1985's under 1992: ",
        refusal_of(EDITION_1992, &of_1985),
    )?;
    print_line(
        rt,
        "1992's under 1985: ",
        refusal_1992(EDITION_1985, 200, 283),
    )?;
    print_line(rt, "1992's under 1986: ", refusal_1992(1986, 200, 283))?;
    print_line(
        rt,
        "165 bytes: ",
        refusal_of(EDITION_1992, &of_1992[0..165]),
    )?;
    print_length(rt, 31_250, 2083)?;
    print_length(rt, 200, 195)?;
    print_length(rt, 8_000, 2083)
}

fn main(rt: HostRuntime) -> io::Result<()> {
    let bytes = lister_case();
    print_line(&rt, "the lister's case: ", refusal_of(EDITION_1985, &bytes))?;
    print_line(&rt, "79 bytes: ", refusal_of(EDITION_1985, &bytes[0..79]))?;
    print_date(&rt, "day 366 of year 84: ", 84 * 512 + 366)?;
    print_date(&rt, "day 367 of year 84: ", 84 * 512 + 367)?;
    print_date(&rt, "day 366 of year 86: ", 86 * 512 + 366)?;
    print_date(&rt, "day 365 of year 86: ", 86 * 512 + 365)?;
    print_date(&rt, "day 366 of year 00: ", 366)?;
    print_date(&rt, "day 366 of year 99: ", 99 * 512 + 366)?;
    fill_a_second(&rt)?;
    println!(rt; "of 1992:")?;
    print_lengths(&rt)?;
    print_editions(&rt)
}
