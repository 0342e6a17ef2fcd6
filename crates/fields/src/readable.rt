// A field that can be read, which is known once for all that is done with it. FORMAT, "The record".
ghost use Rattle.std.specs.Prelude.{◌≡◌, ◌↔◌, IsSome, IfSome, T};
ghost use Rattle.fields.specs.Field.{start, encoded, value_of, with_value, digits_good, Readable, readable, binary_fits};

use crate::Field;

// The last word that a field can start in: more than any record has.
const LAST_READABLE_WORD: usize = 4000;

#[derive(Clone, Copy)]
pub(crate) struct ReadableField {
    pub field: Field,
    ghost readable: { Readable field },
}

impl ReadableField {
    // The field, if it is one that can be read: one of these words, bits 1 to 16, and no wider than the widest.
    pub(crate) fn new(field: Field) -> Option<ReadableField>
        ensures some { IsSome result ↔ T (readable field) }
        ensures same { IfSome result (λ r. r.field ≡ field) }
    {
        let Field(word, bit, width, _, _) = field;
        if ((1 <= word) & (word <= LAST_READABLE_WORD))
            & (((1 <= bit) & (bit <= 16)) & (width <= bits::WIDEST))
        {
            return Some(ReadableField { field });
        }
        None
    }

    // Its first bit, counted from 0.
    fn first_bit(self) -> usize
        ensures { result ≡ start self.field }
    {
        let Field(word, bit, _, _, _) = self.field;
        16 * (word - 1) + (bit - 1)
    }

    // What it holds.
    pub(crate) fn value(self, bytes: &[u8]) -> u64
        ensures { result ≡ value_of self.field bytes.now }
    {
        let Field(_, _, width, decimal, signed) = self.field;
        let code = bits::read_bits(bytes, self.first_bit(), width);
        if decimal {
            return bits::decimal_value(width / 4, code);
        }
        if signed {
            return signed::value_of(width, code);
        }
        code
    }

    // Whether each of its digits, if it holds digits, is at most 9.
    pub(crate) fn digits_good(self, bytes: &[u8]) -> bool
        ensures { result ≡ digits_good self.field bytes.now }
    {
        let Field(_, _, width, decimal, _) = self.field;
        if decimal {
            let code = bits::read_bits(bytes, self.first_bit(), width);
            return bits::decimal_digits(width / 4, code);
        }
        true
    }

    // The code of a value: its digits, if the field holds digits.
    fn code_of(self, value: u64) -> u64
        ensures { result ≡ encoded self.field value }
    {
        let Field(_, _, width, decimal, _) = self.field;
        if decimal {
            return bits::decimal_code(width / 4, value);
        }
        value
    }

    // The value goes into the field.
    pub(crate) fn put_value(self, bytes: &mut [u8], value: u64)
        ensures { bytes.new ≡ with_value self.field value bytes.old }
    {
        let Field(_, _, width, _, _) = self.field;
        bits::write_bits(bytes, self.first_bit(), width, self.code_of(value));
    }

    // Whether the field is decimal or a value is one that its bits can hold, signed or not.
    pub(crate) fn holds(self, value: u64) -> bool
        ensures { result ≡ binary_fits self.field value }
    {
        let Field(_, _, width, decimal, signed) = self.field;
        if decimal {
            return true;
        }
        if signed {
            return signed::fits(width, value);
        }
        bits::fits_bits(width, value)
    }
}
