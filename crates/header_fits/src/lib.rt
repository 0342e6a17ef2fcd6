// Whether the values of a header fit the fields of an edition's table: refusals 10 and 22 of a writer. FORMAT, "The record",
// "Refusal numbers".
#![tactic(auto)]

ghost use Rattle.std.specs.Prelude.{◌≡◌, true};
ghost use Rattle.fields.specs.Field.{binary_fits, decimal_fits};
ghost use Rattle.fields.specs.Table.{all_fit};
ghost use Rattle.header_parts.specs.Parts.{cells, rows_fit};
ghost use Rattle.header.specs.Format.{common};
ghost use Rattle.header.specs.Edition.{edition_of, fields_of};

use header::{Common1, Common2, Common3, Common4, Common5, FIELD_COUNT, Own1985, Own1992};
use header_parts::Part;

// Whether every decimal value has no more digits than its field: they are all among the common rows.
pub fn decimals_fit(values: [u64; FIELD_COUNT]) -> bool
    ensures { result ≡ all_fit decimal_fits common (cells 0 40 values) }
{
    let readback = fields::decimal_fits(header::READBACK, values[header::AT_READBACK]);
    let calculated = fields::decimal_fits(header::CALCULATED, values[header::AT_CALCULATED]);
    let rate = fields::decimal_fits(
        header::FREQUENCY_RATE_DIGITS,
        values[header::AT_FREQUENCY_RATE_DIGITS],
    );
    readback & (calculated & rate)
}

// Whether the values of a part are ones that their rows' bits can hold, if those are not decimal, and the rest fits too.
// Why each place is named: `Part`.
fn fit_part<P: Part>(values: &[u64; FIELD_COUNT], rest: bool) -> bool
    ensures { result ≡ rows_fit P.ROWS P.AT values.now rest }
{
    let rows = P::ROWS;
    let at = P::AT as usize;
    let from_7 = fields::binary_fits(rows[7], values[at + 7], rest);
    let from_6 = fields::binary_fits(rows[6], values[at + 6], from_7);
    let from_5 = fields::binary_fits(rows[5], values[at + 5], from_6);
    let from_4 = fields::binary_fits(rows[4], values[at + 4], from_5);
    let from_3 = fields::binary_fits(rows[3], values[at + 3], from_4);
    let from_2 = fields::binary_fits(rows[2], values[at + 2], from_3);
    let from_1 = fields::binary_fits(rows[1], values[at + 1], from_2);
    fields::binary_fits(rows[0], values[at], from_1)
}

// The same of an edition's own rows.
fn fit_own(edition: u64, values: &[u64; FIELD_COUNT]) -> bool
    ensures { result ≡ rows_fit (edition_of edition).own 40 values.now true }
{
    if edition == header::EDITION_1992 {
        return fit_part::<Own1992>(values, true);
    }
    fit_part::<Own1985>(values, true)
}

// Whether every value that is not decimal is one that its field's bits can hold.
pub fn binaries_fit(edition: u64, values: [u64; FIELD_COUNT]) -> bool
    ensures { result ≡ all_fit binary_fits (fields_of edition) values }
{
    let own = fit_own(edition, &values);
    let from_5 = fit_part::<Common5>(&values, own);
    let from_4 = fit_part::<Common4>(&values, from_5);
    let from_3 = fit_part::<Common3>(&values, from_4);
    let from_2 = fit_part::<Common2>(&values, from_3);
    fit_part::<Common1>(&values, from_2)
}
