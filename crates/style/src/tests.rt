// Edges of styles and results.
use crate::{EmptyElementHandling, Indentation, Style, WriteResult};

// An indent byte and a size, and whether they make a style.
const INDENTS: [(u8, usize, bool); 12] = [
    (9, 0, true),
    (9, 1, true),
    (9, 16, true),
    (9, 17, false),
    (32, 0, true),
    (32, 16, true),
    (32, 17, false),
    (8, 1, false),
    (10, 1, false),
    (31, 16, false),
    (33, 0, false),
    (32, 18446744073709551615, false),
];

#[test]
fn indents(rt: HostRuntime) {
    for (byte, size, allowed) in INDENTS {
        match Style::new(
            EmptyElementHandling::Expanded,
            Some(Indentation { byte, size }),
        ) {
            Ok(style) => {
                assert!(rt; allowed);
                assert!(rt; style.indentation() == Some(Indentation { byte, size }));
                assert!(rt; style.empty_elements() == EmptyElementHandling::Expanded);
            }
            Err(refusal) => {
                assert!(rt; !allowed);
                assert_eq!(rt; (refusal.number(), refusal.offset()), (10, 0));
            }
        }
    }
    assert!(rt; Style::new(EmptyElementHandling::SelfClosed, None).is_ok());
}

#[test]
fn results(rt: HostRuntime) {
    // text, element, nothing, sensitive text, sensitive nothing: may an indent follow, and was it text
    let table = [
        (WriteResult::Text, false, true),
        (WriteResult::Element, true, false),
        (WriteResult::Nothing, true, false),
        (WriteResult::SensitiveText, false, true),
        (WriteResult::SensitiveNothing, false, false),
    ];
    for (result, indent, text) in table {
        assert_eq!(rt; result.allow_indent(), indent);
        assert_eq!(rt; result.is_text(), text);
    }
}
