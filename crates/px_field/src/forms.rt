// The types of a field, and the elements of its value.
ghost use Rattle.std.specs.Prelude.{◌≡◌, ◌<◌};
ghost use Rattle.px_field.specs.Forms.{code, form_of, size};

/// A type of a field: the twelve of TIFF 6.0 section 2, "Types", and UTF-8 of Exif 3.0.
#[derive(Clone, Copy, Debug, PartialEq, Eq)]
pub enum Form {
    /// BYTE, 1: an unsigned number of one byte.
    Byte,
    /// ASCII, 2: one byte of a text, unchanged.
    Ascii,
    /// SHORT, 3: an unsigned number of two bytes.
    Short,
    /// LONG, 4: an unsigned number of four bytes.
    Long,
    /// RATIONAL, 5: two LONGs, the numerator first.
    Rational,
    /// SBYTE, 6: a signed number of one byte, kept as that byte.
    SByte,
    /// UNDEFINED, 7: one byte of unknown meaning.
    Undefined,
    /// SSHORT, 8: a number of two bytes in two's complement.
    SShort,
    /// SLONG, 9: a number of four bytes in two's complement.
    SLong,
    /// SRATIONAL, 10: two SLONGs, the numerator first.
    SRational,
    /// FLOAT, 11: four bytes, kept as a bit pattern.
    Float,
    /// DOUBLE, 12: eight bytes, kept as a bit pattern.
    Double,
    /// UTF-8, 129: one byte of a text, which isn't checked.
    Utf8,
}

/// The kind of a value: a type, or a whole number for a tag that treats SHORT and LONG as the same.
#[derive(Clone, Copy, Debug, PartialEq, Eq)]
pub enum Kind {
    /// A value of that type.
    Of(Form),
    /// Whole numbers, read from SHORT or LONG and written as LONG.
    Whole,
}

/// An element of a value, independent of the byte order.
#[derive(Clone, Copy, Debug, PartialEq, Eq)]
pub enum Element {
    /// Of BYTE, ASCII, SBYTE, UNDEFINED and UTF-8: the byte.
    Byte(u8),
    /// Of SHORT.
    Short(u16),
    /// Of LONG and of whole numbers.
    Long(u32),
    /// Of RATIONAL: the numerator and the denominator, which may be 0.
    Rational(u32, u32),
    /// Of SSHORT.
    SShort(i16),
    /// Of SLONG.
    SLong(i32),
    /// Of SRATIONAL: the numerator and the denominator, which may be 0.
    SRational(i32, i32),
    /// Of FLOAT: the bit pattern.
    Float(u32),
    /// Of DOUBLE: the bit pattern.
    Double(u64),
}

// The type with a number above 12: UTF-8 or none.
#[tactic(auto, using(crate::proofs::FormNumbers::above_none), unfolding(crate::specs::Forms::form_of))]
fn above_twelve(code: u16) -> Option<Form>
    requires { 12 < code }
    ensures { result ≡ form_of code }
{
    if code == 129 {
        return Some(Form::Utf8);
    }
    None
}

impl Form {
    /// The type with that number in an entry, or `None` if it is not one of the thirteen.
    #[tactic(auto, unfolding(crate::specs::Forms::form_of))]
    pub fn of(code: u16) -> Option<Form>
        ensures { result ≡ form_of code }
    {
        // Without this the match over 1 to 12 and 129 needs a jump table.
        if code > 12 {
            return above_twelve(code);
        }
        Some(match code {
            1 => Form::Byte,
            2 => Form::Ascii,
            3 => Form::Short,
            4 => Form::Long,
            5 => Form::Rational,
            6 => Form::SByte,
            7 => Form::Undefined,
            8 => Form::SShort,
            9 => Form::SLong,
            10 => Form::SRational,
            11 => Form::Float,
            12 => Form::Double,
            _ => return None,
        })
    }

    /// The bytes of one element: 1, 2, 4 or 8.
    pub fn size(self) -> u32
        ensures { result ≡ size self }
    {
        match self {
            Form::Byte | Form::Ascii | Form::SByte | Form::Undefined | Form::Utf8 => 1,
            Form::Short | Form::SShort => 2,
            Form::Long | Form::SLong | Form::Float => 4,
            Form::Rational | Form::SRational | Form::Double => 8,
        }
    }

    /// The number of the type in an entry: 1 to 12, or 129.
    pub fn code(self) -> u16
        ensures { result ≡ code self }
    {
        // The other variants are declared in the order of their numbers, from 1 on.
        match self {
            Form::Utf8 => 129,
            other => other as u16 + 1,
        }
    }
}
