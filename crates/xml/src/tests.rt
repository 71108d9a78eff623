// Edges of text, names and escaping.
use crate::{QuoteLevel, Use, XmlName, escape_into, escaped_len, well_formed};
use refusal::Refusal;
use std::test::Fail;

// Bytes, and the length of their longest beginning of whole characters where they are not well-formed.
const TEXTS: [(&[u8], Option<usize>); 20] = [
    (b"", None),
    (b"Tal", None),
    (b"\x7F", None),
    (b"\xC2\x80", None),
    (b"\xDF\xBF", None),
    (b"\xE0\xA0\x80", None),
    (b"\xED\x9F\xBF", None),
    (b"\xEE\x80\x80", None),
    (b"\xF0\x9F\x97\xBA", None),
    (b"\xF4\x8F\xBF\xBF", None),
    // a continuation byte alone, and overlong forms of two, three and four bytes
    (b"a\x80", Some(1)),
    (b"ab\xC0\x80", Some(2)),
    (b"\xC3\xBC\xC1\xBF", Some(2)),
    (b"\xE0\x9F\xBF", Some(0)),
    (b"a\xF0\x8F\xBF\xBF", Some(1)),
    // surrogates, and one past the last character
    (b"a\xED\xA0\x80", Some(1)),
    (b"\xED\xBF\xBF", Some(0)),
    (b"ab\xF4\x90\x80\x80", Some(2)),
    (b"\xF5\x80\x80\x80", Some(0)),
    (b"\xFF", Some(0)),
];

#[test]
fn texts(rt: HostRuntime) {
    for (bytes, whole) in TEXTS {
        match well_formed(bytes) {
            Ok(text) => {
                assert_eq!(rt; text.as_bytes(), bytes);
                assert_eq!(rt; whole, None);
            }
            Err(refusal) => assert_eq!(rt; Some(refusal), whole.map(Refusal::Bytes)),
        }
    }
}

#[test]
fn a_character_cut_short(rt: HostRuntime) {
    let map = b"ab\xF0\x9F\x97\xBAc";
    for end in 3..6 {
        assert_eq!(rt; well_formed(&map[0..end]).err(), Some(Refusal::Bytes(2)));
    }
    assert!(rt; well_formed(&map[0..6]).is_ok());
    assert!(rt; well_formed(&map[0..2]).is_ok());
}

#[derive(Clone, Copy)]
enum Kind {
    Start,
    Inside,
    Neither,
}

// The first and the last character of each range, with their neighbours.
const CHARACTERS: &[(&str, Kind)] = &[
    ("\u{2C}", Kind::Neither),
    ("\u{2D}", Kind::Inside),
    ("\u{2E}", Kind::Inside),
    ("\u{2F}", Kind::Neither),
    ("\u{30}", Kind::Inside),
    ("\u{39}", Kind::Inside),
    ("\u{3A}", Kind::Start),
    ("\u{3B}", Kind::Neither),
    ("\u{40}", Kind::Neither),
    ("\u{41}", Kind::Start),
    ("\u{5A}", Kind::Start),
    ("\u{5B}", Kind::Neither),
    ("\u{5E}", Kind::Neither),
    ("\u{5F}", Kind::Start),
    ("\u{60}", Kind::Neither),
    ("\u{61}", Kind::Start),
    ("\u{7A}", Kind::Start),
    ("\u{7B}", Kind::Neither),
    ("\u{B6}", Kind::Neither),
    ("\u{B7}", Kind::Inside),
    ("\u{B8}", Kind::Neither),
    ("\u{BF}", Kind::Neither),
    ("\u{C0}", Kind::Start),
    ("\u{D6}", Kind::Start),
    ("\u{D7}", Kind::Neither),
    ("\u{D8}", Kind::Start),
    ("\u{F6}", Kind::Start),
    ("\u{F7}", Kind::Neither),
    ("\u{F8}", Kind::Start),
    ("\u{2FF}", Kind::Start),
    ("\u{300}", Kind::Inside),
    ("\u{36F}", Kind::Inside),
    ("\u{370}", Kind::Start),
    ("\u{37D}", Kind::Start),
    ("\u{37E}", Kind::Neither),
    ("\u{37F}", Kind::Start),
    ("\u{1FFF}", Kind::Start),
    ("\u{2000}", Kind::Neither),
    ("\u{200B}", Kind::Neither),
    ("\u{200C}", Kind::Start),
    ("\u{200D}", Kind::Start),
    ("\u{200E}", Kind::Neither),
    ("\u{203E}", Kind::Neither),
    ("\u{203F}", Kind::Inside),
    ("\u{2040}", Kind::Inside),
    ("\u{2041}", Kind::Neither),
    ("\u{206F}", Kind::Neither),
    ("\u{2070}", Kind::Start),
    ("\u{218F}", Kind::Start),
    ("\u{2190}", Kind::Neither),
    ("\u{2BFF}", Kind::Neither),
    ("\u{2C00}", Kind::Start),
    ("\u{2FEF}", Kind::Start),
    ("\u{2FF0}", Kind::Neither),
    ("\u{3000}", Kind::Neither),
    ("\u{3001}", Kind::Start),
    ("\u{D7FF}", Kind::Start),
    ("\u{F8FF}", Kind::Neither),
    ("\u{F900}", Kind::Start),
    ("\u{FDCF}", Kind::Start),
    ("\u{FDD0}", Kind::Neither),
    ("\u{FDEF}", Kind::Neither),
    ("\u{FDF0}", Kind::Start),
    ("\u{FFFD}", Kind::Start),
    ("\u{FFFE}", Kind::Neither),
    ("\u{FFFF}", Kind::Neither),
    ("\u{10000}", Kind::Start),
    ("\u{EFFFF}", Kind::Start),
    ("\u{F0000}", Kind::Neither),
];

#[test]
fn name_characters(rt: HostRuntime) -> Result<(), Fail> {
    for (c, kind) in CHARACTERS {
        let behind = format!(in rt.alloc(); "a{c}")?;
        let (alone, inside) = match kind {
            Kind::Start => (None, None),
            Kind::Inside => (Some(Refusal::Name(0)), None),
            Kind::Neither => (Some(Refusal::Name(0)), Some(Refusal::Name(1))),
        };
        assert_eq!(rt; XmlName::try_from(c).err(), alone, "{}", c);
        assert_eq!(rt; XmlName::try_from(&behind).err(), inside, "{}", c);
    }
    Ok(())
}

#[test]
fn names(rt: HostRuntime) {
    assert_eq!(rt; XmlName::try_from("").err(), Some(Refusal::Name(0)));
    assert_eq!(rt; XmlName::try_from("@").err(), Some(Refusal::Name(0)));
    assert_eq!(rt; XmlName::try_from("a b").err(), Some(Refusal::Name(1)));
    assert_eq!(rt; XmlName::try_from("\u{FC}ber-all.7").err(), None);
    assert_eq!(rt;
        XmlName::try_from("\u{1F5FA}\u{B7}\u{D7}").err(),
        Some(Refusal::Name(6))
    );
}

// All nine bytes and one that stays, for each level and use.
const NINE: &[u8] = b"<>'&\"\t\n\r x";

const ESCAPED: [(QuoteLevel, Use, &[u8]); 12] = [
    (
        QuoteLevel::Full,
        Use::Text,
        b"&lt;&gt;&apos;&amp;&quot;\t\n&#13; x",
    ),
    (
        QuoteLevel::Full,
        Use::Attribute,
        b"&lt;&gt;&apos;&amp;&quot;&#9;&#10;&#13; x",
    ),
    (
        QuoteLevel::Full,
        Use::TextItem,
        b"&lt;&gt;&apos;&amp;&quot;&#9;&#10;&#13;&#32;x",
    ),
    (
        QuoteLevel::Full,
        Use::AttributeItem,
        b"&lt;&gt;&apos;&amp;&quot;&#9;&#10;&#13;&#32;x",
    ),
    (
        QuoteLevel::Partial,
        Use::Text,
        b"&lt;&gt;'&amp;\"\t\n&#13; x",
    ),
    (
        QuoteLevel::Partial,
        Use::Attribute,
        b"&lt;&gt;'&amp;&quot;&#9;&#10;&#13; x",
    ),
    (
        QuoteLevel::Partial,
        Use::TextItem,
        b"&lt;&gt;'&amp;\"&#9;&#10;&#13;&#32;x",
    ),
    (
        QuoteLevel::Partial,
        Use::AttributeItem,
        b"&lt;&gt;'&amp;&quot;&#9;&#10;&#13;&#32;x",
    ),
    (
        QuoteLevel::Minimal,
        Use::Text,
        b"&lt;&gt;'&amp;\"\t\n&#13; x",
    ),
    (
        QuoteLevel::Minimal,
        Use::Attribute,
        b"&lt;>'&amp;&quot;&#9;&#10;&#13; x",
    ),
    (
        QuoteLevel::Minimal,
        Use::TextItem,
        b"&lt;&gt;'&amp;\"&#9;&#10;&#13;&#32;x",
    ),
    (
        QuoteLevel::Minimal,
        Use::AttributeItem,
        b"&lt;>'&amp;&quot;&#9;&#10;&#13;&#32;x",
    ),
];

#[test]
fn levels_and_uses(rt: HostRuntime) -> Result<(), Fail> {
    for (level, target, expected) in ESCAPED {
        let mut out = [7u8; 64];
        assert_eq!(rt; escaped_len(NINE, &level, target), expected.len());
        match escape_into(&mut out, 1, NINE, &level, target) {
            Ok(end) => {
                assert!(rt; end < 64);
                assert!(rt; 1 <= end);
                assert_eq!(rt; &out[1..end], expected);
                assert_eq!(rt; out[0], 7);
                assert_eq!(rt; out[end], 7);
            }
            Err(_) => return Err(Fail::new("64 bytes are enough")),
        }
    }
    Ok(())
}

#[test]
fn escaping_at_the_edge(rt: HostRuntime) {
    let level = QuoteLevel::Partial;
    let mut out = [7u8; 9];
    // `&lt;&amp;` fills nine bytes, and not eight
    assert_eq!(rt;
        escape_into(&mut out, 1, b"<&", &level, Use::Text),
        Err(Refusal::Stage)
    );
    assert_eq!(rt; out, [7u8; 9]);
    assert_eq!(rt; escape_into(&mut out, 0, b"<&", &level, Use::Text), Ok(9));
    assert_eq!(rt; &out[0..9], b"&lt;&amp;".as_slice());
    // nothing fits up to the end, and not past it
    assert_eq!(rt; escape_into(&mut out, 9, b"", &level, Use::Text), Ok(9));
    assert_eq!(rt;
        escape_into(&mut out, 10, b"", &level, Use::Text),
        Err(Refusal::Stage)
    );
    assert_eq!(rt; escape_into(&mut [], 0, b"", &level, Use::Text), Ok(0));
}
