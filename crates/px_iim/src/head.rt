// A DataSet in the normal form, up to its data.
ghost use Rattle.std.specs.Prelude.{◌≡◌, ◌≤◌, ◌<◌, take};
ghost use Rattle.px_bytes.specs.declared.Order.TheVariants.{Most};
ghost use Rattle.px_bytes.specs.Numbers.{spelling};
ghost use Rattle.px_iim.specs.calls.Heads.{normal_head};

use crate::dataset::{MARKER, TOP_BIT};
use px_bytes::Order;

/// The longest head in bytes: the marker, two numbers, and an extended length of six bytes.
pub(crate) const HEAD: usize = 9;

// The number in two bytes, the most significant one first, as IIM 4.2 chapter 1 orders them.
fn two_octets(n: u16) -> [u8; 2]
    ensures { result ≡ spelling Most 2 n }
{
    let mut octets = [0; 2];
    Order::Most.put16(n, &mut octets);
    octets
}

// The number in four bytes, the most significant one first.
fn four_octets(n: u32) -> [u8; 4]
    ensures { result ≡ spelling Most 4 n }
{
    let mut octets = [0; 4];
    Order::Most.put32(n, &mut octets);
    octets
}

// The bytes before the data, and how many there are.
#[tactic(auto, unfolding(crate::specs::calls::Heads::normal_head))]
pub(crate) fn head(rec: u8, number: u8, count: u32) -> ([u8; HEAD], usize)
    ensures encoded { take result.1 result.0 ≡ normal_head rec number count }
    ensures bound { result.1 ≤ 9 }
{
    if count < TOP_BIT {
        let [high, low] = two_octets(count as u16);
        return ([MARKER, rec, number, high, low, 0, 0, 0, 0], 5);
    }
    let [form, extra] = two_octets((TOP_BIT + 4) as u16);
    let [a, b, c, d] = four_octets(count);
    ([MARKER, rec, number, form, extra, a, b, c, d], 9)
}
