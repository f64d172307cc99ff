// The attributes of a tag, apart from declarations.
ghost use Rattle.std.specs.Prelude.{◌≡◌, ◌≤◌, ◌<◌, List, true, length, option_map, is_some, IfSome};
ghost use Rattle.px_xmp_marks.specs.Reading.{Attr, name_view, next_view};
ghost use Rattle.px_xmp_document.specs.Bindings.{declared_prefix};
ghost use Rattle.px_xmp.specs.Tags.{names_language, is_plain, DeclaresLanguage, inherited};
ghost use Rattle.px_xmp.specs.calls.Listed.{AreListed, IsNextPlain};
ghost use Rattle.px_xmp.specs.calls.Fits.{LanguageFits};

use px_xmp_forms::is_language;
use px_xmp_marks::{Name, NextAttribute, next_attribute};

// The prefix, or the whole name, of an attribute that declares a namespace. Namespaces in XML 1.0,
// 3.
const XMLNS: &[u8] = b"xmlns";

// The prefix of xml:lang.
const XML: &[u8] = b"xml";

// The local name of xml:lang, which declares the language of an element. XML 1.0, 2.12.
const LANG: &[u8] = b"lang";

// The prefix of a declaration, after `xmlns`, or None if an attribute with this name declares none.
pub(crate) fn declared_prefix<'a>(name: Name<'a>) -> Option<&'a [u8]>
    ensures { option_map (λ p. p.now) result ≡ declared_prefix (name_view name.entry) }
{
    if name.prefix == XMLNS {
        return Some(name.local);
    }
    if name.prefix.is_empty() && name.local == XMLNS {
        return Some(name.prefix);
    }
    None
}

// Whether an attribute with this name is xml:lang. The prefix is bound to one namespace, and no other is bound to that one.
pub(crate) fn names_language(name: Name) -> bool
    ensures { result ≡ names_language (name_view name.entry) }
{
    name.prefix == XML && name.local == LANG
}

// Whether an attribute with this name declares nothing.
pub(crate) fn is_plain(name: Name) -> bool
    ensures { result ≡ is_plain (name_view name.entry) }
{
    declared_prefix(name).is_none() && !names_language(name)
}

// The first attribute that is no declaration and no language. None: there is none up to the end of
// the tag.
pub(crate) fn next_plain<'a>(octets: &'a [u8]) -> Option<NextAttribute<'a>>
    ensures value { (attributes : List Attr) → AreListed octets.now attributes → IsNextPlain (option_map next_view result) attributes }
    ensures shorter { IfSome result (λ n. length n.rest.now < length octets.now) }
{
    px_xmp_marks::laws::attributes_in_order();
    let mut rest = octets;
    while let Some(next) = next_attribute(rest) {
        if is_plain(next.attribute.name) {
            return Some(next);
        }
        rest = next.rest;
    }
    None
}

// The language of the texts in an element that declares a language, or is in the one around it.
// None: what it declares is neither empty nor a language of RFC 3066, or is too long.
pub(crate) fn language_of<'a>(declared: Option<&'a [u8]>, outer: &'a [u8]) -> Option<&'a [u8]>
    ensures declares { IfSome result (λ l. DeclaresLanguage (option_map (λ d. d.now) declared.entry)) }
    ensures language { IfSome result (λ l. l.now ≡ inherited outer.now (option_map (λ d. d.now) declared.entry)) }
    ensures accepts { LanguageFits (option_map (λ d. d.now) declared.entry) → is_some result ≡ true }
{
    match declared {
        Some(language) => {
            if !is_language(language) {
                return None;
            }
            Some(language)
        }
        None => Some(outer),
    }
}
