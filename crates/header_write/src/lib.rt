// The values of a header, written by the table of an edition, part by part. FORMAT, "The record".
#![tactic(auto)]

ghost use Rattle.std.specs.Prelude.{◌≡◌};
ghost use Rattle.fields.specs.Table.{write_all};
ghost use Rattle.header_parts.specs.Parts.{cells, rows_written};
ghost use Rattle.header.specs.Edition.{edition_of, fields_of};

use header::{Common1, Common2, Common3, Common4, Common5, FIELD_COUNT, Own1985, Own1992};
use header_parts::Part;

// The values of a part go into its rows. Why each place is named: `Part`.
fn write_part<P: Part>(bytes: &mut [u8], values: &[u64; FIELD_COUNT])
    ensures { bytes.new ≡ rows_written P.ROWS (cells P.AT 8 values.now) bytes.old }
{
    let rows = P::ROWS;
    let at = P::AT as usize;
    fields::write_field(bytes, rows[0], values[at]);
    fields::write_field(bytes, rows[1], values[at + 1]);
    fields::write_field(bytes, rows[2], values[at + 2]);
    fields::write_field(bytes, rows[3], values[at + 3]);
    fields::write_field(bytes, rows[4], values[at + 4]);
    fields::write_field(bytes, rows[5], values[at + 5]);
    fields::write_field(bytes, rows[6], values[at + 6]);
    fields::write_field(bytes, rows[7], values[at + 7]);
}

// The values of an edition's own rows go into them.
fn write_own(edition: u64, bytes: &mut [u8], values: &[u64; FIELD_COUNT])
    ensures { bytes.new ≡ write_all (edition_of edition).own (cells 40 8 values.now) bytes.old }
{
    if edition == header::EDITION_1992 {
        write_part::<Own1992>(bytes, values);
    } else {
        write_part::<Own1985>(bytes, values);
    }
}

// The values go into the edition's fields; every bit that no field names stays.
pub fn write_values(edition: u64, bytes: &mut [u8], values: [u64; FIELD_COUNT])
    ensures { bytes.new ≡ write_all (fields_of edition) values bytes.old }
{
    write_part::<Common1>(bytes, &values);
    write_part::<Common2>(bytes, &values);
    write_part::<Common3>(bytes, &values);
    write_part::<Common4>(bytes, &values);
    write_part::<Common5>(bytes, &values);
    write_own(edition, bytes, &values);
}
