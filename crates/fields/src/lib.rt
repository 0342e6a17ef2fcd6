// One field of a header, read and written as its row of the format's table says. FORMAT, "The record".
// A field that no format has, such as one of word 0 or of 60 bits, reads as 0 and is not written.
#![tactic(auto)]

ghost use Rattle.std.specs.Prelude.{◌≡◌, ◌&&◌};
ghost use Rattle.fields.specs.Field.{read_value, write_value, good_digits, fits_binary, fits_decimal};

mod readable;

use readable::ReadableField;

// A field: its word and first bit, both counted from 1, its width in bits, and whether it holds decimal digits or a signed
// number. Two flags, not an enum of three kinds: `read_field` and the others promise an answer for any five values.
#[derive(Clone, Copy)]
pub struct Field(pub usize, pub usize, pub usize, pub bool, pub bool);

// What the field holds.
pub fn read_field(bytes: &[u8], f: Field) -> u64
    ensures { result ≡ read_value f bytes.now }
{
    match ReadableField::new(f) {
        Some(field) => field.value(bytes),
        None => 0,
    }
}

// Whether each of the field's digits, if it holds digits, is at most 9.
pub fn good_digits(bytes: &[u8], f: Field) -> bool
    ensures { result ≡ good_digits f bytes.now }
{
    match ReadableField::new(f) {
        Some(field) => field.digits_good(bytes),
        None => true,
    }
}

// The value goes into the field; every other bit stays.
pub fn write_field(bytes: &mut [u8], f: Field, value: u64)
    ensures { bytes.new ≡ write_value f value bytes.old }
{
    if let Some(field) = ReadableField::new(f) {
        field.put_value(bytes, value);
    }
}

// Whether a value is one that the field's bits can hold, if that is not decimal, and the rest fits too.
#[tactic(auto, unfolding(crate::specs::Field::fits_binary))]
pub fn binary_fits(f: Field, value: u64, rest: bool) -> bool
    ensures { result ≡ (fits_binary f value && rest) }
{
    match ReadableField::new(f) {
        Some(field) => field.holds(value) & rest,
        None => rest,
    }
}

// Whether a value has no more digits than the field, if that is decimal.
pub fn decimal_fits(f: Field, value: u64) -> bool
    ensures { result ≡ fits_decimal f value }
{
    let Field(_, _, width, decimal, _) = f;
    let fits = bits::fits_digits(width / 4, value);
    ReadableField::new(f).is_none() | (!decimal | fits)
}
