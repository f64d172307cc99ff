// Converts many elements from one byte order to another: one simple loop for each width.
ghost use Rattle.std.specs.Prelude.{◌≡◌, ◌≤◌, ◌*◌, ◌++◌, [], ◌∷◌, length, flat_map};
ghost use Rattle.px_bytes.specs.Parts.{pieces};
ghost use Rattle.px_bytes.specs.declared.Order.{Order as AnyOrder};
ghost use Rattle.px_field.specs.declared.turning.Width.TheVariants.{One, Two, Four, Pair, Eight, Widened};
ghost use Rattle.px_field.specs.calls.Turning.{width_of, read_by, turned, written_by};

use crate::forms::Form;
use px_bytes::Order;

/// How the bytes of an element are swapped.
#[derive(Clone, Copy, Debug, PartialEq, Eq)]
pub enum Width {
    /// One byte, which stays.
    One,
    /// A number of two bytes.
    Two,
    /// A number of four bytes.
    Four,
    /// Two numbers of four bytes.
    Pair,
    /// A number of eight bytes.
    Eight,
    /// A number of two bytes that is written in four.
    Widened,
}

/// The byte orders in which elements are read and written, and the kind of swap.
#[derive(Clone, Copy, Debug)]
pub struct Way {
    /// The kind of swap.
    pub width: Width,
    /// The byte order in which they are read.
    pub read: Order,
    /// The byte order in which they are written.
    pub write: Order,
}

impl Width {
    /// The width of a type's elements, widened or not.
    pub fn of(form: Form, widened: bool) -> Width
        ensures { result ≡ width_of widened form }
    {
        if widened {
            return match form {
                Form::Short => Width::Widened,
                _ => Width::Four,
            };
        }
        match form {
            Form::Short | Form::SShort => Width::Two,
            Form::Long | Form::SLong | Form::Float => Width::Four,
            Form::Rational | Form::SRational => Width::Pair,
            Form::Double => Width::Eight,
            Form::Byte | Form::Ascii | Form::SByte | Form::Undefined | Form::Utf8 => Width::One,
        }
    }
}

/// Writes the first `count` elements of `from` into `to`, which has exactly their length.
pub fn turn(how: Way, count: usize, from: &[u8], to: &mut [u8])
    requires from { count * read_by how.width ≤ length from.now }
    requires to { length to.old ≡ count * written_by how.width }
    ensures { to.new ≡ flat_map (turned how.width how.read how.write) (pieces count (read_by how.width) from.now) }
{
    let Way { width, read, write } = how;
    match width {
        Width::One => turn_one(count, from, to),
        Width::Two => turn_two(read, write, count, from, to),
        Width::Four => turn_four(read, write, count, from, to),
        Width::Pair => turn_pairs(read, write, count, from, to),
        Width::Eight => turn_eight(read, write, count, from, to),
        Width::Widened => turn_wide(read, write, count, from, to),
    }
}

// One byte is the same in either order.
fn turn_one(count: usize, from: &[u8], to: &mut [u8])
    requires from { count * 1 ≤ length from.now }
    requires to { length to.old ≡ count * 1 }
    ensures { (read write : AnyOrder) → to.new ≡ flat_map (turned One read write) (pieces count 1 from.now) }
{
    to.copy_from_slice(&from[..count]);
}

// Converts `count` numbers of two bytes: SHORT and SSHORT.
fn turn_two(read: Order, write: Order, count: usize, from: &[u8], to: &mut [u8])
    requires from { count * 2 ≤ length from.now }
    requires to { length to.old ≡ count * 2 }
    ensures { to.new ≡ flat_map (turned Two read write) (pieces count 2 from.now) }
{
    for i in 0..count {
        let at = i * 2;
        write.put16(read.get16(&from[at..at + 2]), &mut to[at..at + 2]);
    }
}

// Converts `count` numbers of four bytes: LONG, SLONG and FLOAT.
fn turn_four(read: Order, write: Order, count: usize, from: &[u8], to: &mut [u8])
    requires from { count * 4 ≤ length from.now }
    requires to { length to.old ≡ count * 4 }
    ensures { to.new ≡ flat_map (turned Four read write) (pieces count 4 from.now) }
{
    for i in 0..count {
        let at = i * 4;
        write.put32(read.get32(&from[at..at + 4]), &mut to[at..at + 4]);
    }
}

// Converts `count` fractions, eight bytes each: RATIONAL and SRATIONAL.
fn turn_pairs(read: Order, write: Order, count: usize, from: &[u8], to: &mut [u8])
    requires from { count * 8 ≤ length from.now }
    requires to { length to.old ≡ count * 8 }
    ensures { to.new ≡ flat_map (turned Pair read write) (pieces count 8 from.now) }
{
    for i in 0..count {
        let at = i * 8;
        turn_pair(read, write, &from[at..at + 8], &mut to[at..at + 8]);
    }
}

// Converts one fraction: the two numbers of four bytes keep their places, and the bytes of each are
// put in the other order.
fn turn_pair(read: Order, write: Order, from: &[u8], to: &mut [u8])
    requires from { length from.now ≡ 8 }
    requires to { length to.old ≡ 8 }
    ensures { to.new ≡ turned Pair read write from.now }
{
    write.put32(read.get32(&from[..4]), &mut to[..4]);
    write.put32(read.get32(&from[4..]), &mut to[4..]);
}

// Converts `count` numbers of eight bytes: DOUBLE.
fn turn_eight(read: Order, write: Order, count: usize, from: &[u8], to: &mut [u8])
    requires from { count * 8 ≤ length from.now }
    requires to { length to.old ≡ count * 8 }
    ensures { to.new ≡ flat_map (turned Eight read write) (pieces count 8 from.now) }
{
    for i in 0..count {
        let at = i * 8;
        write.put64(read.get64(&from[at..at + 8]), &mut to[at..at + 8]);
    }
}

// Converts `count` SHORT to LONG: two bytes are read for each, and four are written. The number
// stays the same.
fn turn_wide(read: Order, write: Order, count: usize, from: &[u8], to: &mut [u8])
    requires from { count * 2 ≤ length from.now }
    requires to { length to.old ≡ count * 4 }
    ensures { to.new ≡ flat_map (turned Widened read write) (pieces count 2 from.now) }
{
    for i in 0..count {
        let at = i * 2;
        let wide = u32::from(read.get16(&from[at..at + 2]));
        write.put32(wide, &mut to[i * 4..i * 4 + 4]);
    }
}

// ---- one element, without a loop

/// The bytes of one element of two numbers of four bytes each, in the order `write`, that `from` has in the order
/// `read`.
pub fn turned_pair(read: Order, write: Order, from: &[u8]) -> [u8; 8]
    requires { length from.now ≡ 8 }
    ensures { result ≡ turned Pair read write from.now }
{
    let mut bytes = [0; 8];
    turn_pair(read, write, from, &mut bytes);
    bytes
}

/// The bytes of one number of two bytes in the order `write`, that `from` has in the order `read`, and then two
/// zeros.
pub fn turned_short(read: Order, write: Order, from: &[u8]) -> [u8; 4]
    requires { length from.now ≡ 2 }
    ensures { result ≡ turned Two read write from.now ++ 0 ∷ 0 ∷ [] }
{
    let mut bytes = [0; 4];
    write.put16(read.get16(from), &mut bytes[..2]);
    bytes
}

/// The bytes of one number of four bytes in the order `write`, that `from` has in the order `read`.
pub fn turned_long(read: Order, write: Order, from: &[u8]) -> [u8; 4]
    requires { length from.now ≡ 4 }
    ensures { result ≡ turned Four read write from.now }
{
    let mut bytes = [0; 4];
    write.put32(read.get32(from), &mut bytes);
    bytes
}
