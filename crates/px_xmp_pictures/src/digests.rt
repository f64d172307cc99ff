// The name of extended XMP: the MD5 of its octets, in hexadecimal capitals. XMP part 3, 1.1.3.1.
ghost use Rattle.std.specs.Prelude.{◌≡◌, ℕ, List, ◌<◌, ◌≤◌, ◌/◌, ◌%◌, ◌∷◌, true, length, drop};
ghost use Rattle.md5.specs.Md5.{md5};
ghost use Rattle.px_xmp_pictures.specs.Extension.{capital, capitals};

use md5::{Digest, Md5};

// A number below 16 as a hexadecimal digit.
fn capital(number: u8) -> u8
    requires { number < 16 }
    ensures { result ≡ capital number }
{
    if number < 10 {
        return b'0' + number;
    }
    b'A' - 10 + number
}

// Whether a name begins with the two digits of an octet.
fn begins_with(name: &[u8], octet: u8) -> bool
    ensures value { result ≡ true → name.now ≡ capital (octet / 16) ∷ capital (octet % 16) ∷ drop 2 name.now }
    ensures few { result ≡ true → 2 ≤ length name.now }
    ensures all { (rest : List ℕ) → name.now ≡ capital (octet / 16) ∷ capital (octet % 16) ∷ rest → result ≡ true }
{
    name.len() >= 2 && name[0] == capital(octet / 16) && name[1] == capital(octet % 16)
}

// Whether a name is these octets in hexadecimal capitals.
fn spells(name: &[u8], octets: &[u8]) -> bool
    ensures value { result ≡ true → name.now ≡ capitals octets.now }
    ensures all { name.now ≡ capitals octets.now → result ≡ true }
{
    let mut left = name;
    for octet in octets {
        if !begins_with(left, *octet) {
            return false;
        }
        left = left.split_at(2).1;
    }
    left.is_empty()
}

// Whether a name is the MD5 of some octets.
pub(crate) fn is_name_of(name: &[u8], octets: &[u8]) -> bool
    ensures value { result ≡ true → name.now ≡ capitals (md5 octets.now) }
    ensures all { name.now ≡ capitals (md5 octets.now) → result ≡ true }
{
    let digest = Md5::digest(octets);
    spells(name, &digest)
}
