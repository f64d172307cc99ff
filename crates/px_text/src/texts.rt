// Parts of texts. Each call adds one to the output buffer.
//
// `pending` is the output buffer, and `writer` gets its bytes when it is full. `Err` of a function
// here: a call of the writer failed, which has taken a prefix of the buffered bytes and of those
// that the function adds.
ghost use Rattle.std.specs.Prelude.{◌≤◌, ◌++◌, length};
ghost use Rattle.hex.specs.Hex.{encode_lower};
ghost use Rattle.px_bytes.specs.Devices.{CanCountFailure, device_of};
ghost use Rattle.px_bytes.specs.Waiting.{Adds};
ghost use Rattle.px_text.specs.Words.{shown_bytes, sized_bytes};

use hex::encode_to_slice;
use itoa::{Buffer, Integer};
use px_bytes::{Failed, Pending, Sink};

// How many bytes are converted to hexadecimal digits at a time.
const PIECE: usize = 64;

// Adds a number in decimal.
pub(crate) fn put_decimal<W: Sink, I: Integer>(
    pending: &mut Pending<'_>,
    writer: &mut W,
    n: I,
) -> Result<(), Failed>
    requires { CanCountFailure (W.calls writer.old) }
    ensures { Adds result (device_of W.calls W.bytes_taken writer.old writer.new) pending.old pending.new (I.text n) }
{
    let mut digits = Buffer::new();
    pending.put(writer, digits.format(n).as_bytes())
}

// Adds a number in decimal and a word after it.
pub(crate) fn put_ended<W: Sink, I: Integer>(
    pending: &mut Pending<'_>,
    writer: &mut W,
    n: I,
    after: &[u8],
) -> Result<(), Failed>
    requires { CanCountFailure (W.calls writer.old) }
    ensures { Adds result (device_of W.calls W.bytes_taken writer.old writer.new) pending.old pending.new (I.text n ++ after.now) }
{
    put_decimal(pending, writer, n)?;
    pending.put(writer, after)
}

// Adds a number in decimal between two words.
pub(crate) fn put_number<W: Sink, I: Integer>(
    pending: &mut Pending<'_>,
    writer: &mut W,
    before: &[u8],
    n: I,
    after: &[u8],
) -> Result<(), Failed>
    requires { CanCountFailure (W.calls writer.old) }
    ensures { Adds result (device_of W.calls W.bytes_taken writer.old writer.new) pending.old pending.new
        (before.now ++ (I.text n ++ after.now)) }
{
    pending.put(writer, before)?;
    put_ended(pending, writer, n, after)
}

// Adds a few bytes in hexadecimal.
fn put_piece<W: Sink>(pending: &mut Pending<'_>, writer: &mut W, piece: &[u8]) -> Result<(), Failed>
    requires few { CanCountFailure (W.calls writer.old) }
    requires short { length piece.now ≤ 64 }
    ensures { Adds result (device_of W.calls W.bytes_taken writer.old writer.new) pending.old pending.new (encode_lower piece.now) }
{
    let mut digits = [0; 2 * PIECE];
    let width = 2 * piece.len();
    let Ok(()) = encode_to_slice(piece, &mut digits[..width]) else {
        unreachable!()
    };
    pending.put(writer, &digits[..width])
}

// Adds bytes in hexadecimal.
pub(crate) fn put_hex<W: Sink>(
    pending: &mut Pending<'_>,
    writer: &mut W,
    bytes: &[u8],
) -> Result<(), Failed>
    requires { CanCountFailure (W.calls writer.old) }
    ensures { Adds result (device_of W.calls W.bytes_taken writer.old writer.new) pending.old pending.new (encode_lower bytes.now) }
{
    let mut at = 0;
    while at < bytes.len() {
        let end = at + PIECE.min(bytes.len() - at);
        put_piece(pending, writer, &bytes[at..end])?;
        at = end;
    }
    Ok(())
}

// Adds a space and bytes in hexadecimal, if there are any.
pub(crate) fn put_shown<W: Sink>(
    pending: &mut Pending<'_>,
    writer: &mut W,
    bytes: &[u8],
) -> Result<(), Failed>
    requires { CanCountFailure (W.calls writer.old) }
    ensures { Adds result (device_of W.calls W.bytes_taken writer.old writer.new) pending.old pending.new (shown_bytes bytes.now) }
{
    if bytes.is_empty() {
        return Ok(());
    }
    pending.put(writer, b" ")?;
    put_hex(pending, writer, bytes)
}

// Adds the number of bytes and the bytes, up to the end of the line.
#[tactic(auto, unfolding(crate::specs::Words::sized_bytes))]
pub(crate) fn put_sized<W: Sink>(
    pending: &mut Pending<'_>,
    writer: &mut W,
    bytes: &[u8],
) -> Result<(), Failed>
    requires { CanCountFailure (W.calls writer.old) }
    ensures { Adds result (device_of W.calls W.bytes_taken writer.old writer.new) pending.old pending.new (sized_bytes bytes.now) }
{
    put_number(pending, writer, b" ", bytes.len(), b":")?;
    put_shown(pending, writer, bytes)?;
    pending.put(writer, b"\n")
}
