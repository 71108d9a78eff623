// Every word, every error, and the edges of lines, escapes and numbers.
use crate::{
    Fault, Layout, Line, Script, ScriptError, SinkChoice, Sizes, number, read_line, unescape,
};
use std::alloc::Global;
use std::process::Abort;
use std::test::Fail;
use style::EmptyElementHandling::{self, Expanded, SelfClosed, SelfClosedWithSpace};
use style::Indentation;
use xml::QuoteLevel;

// An argument, and the bytes that it stands for, if it has no bad escape.
const ESCAPES: [(&[u8], Option<&[u8]>); 22] = [
    (b"", Some(b"")),
    (b"plain \xFF\x00", Some(b"plain \xFF\x00")),
    (b"\\n\\r\\t\\\\", Some(b"\n\r\t\\")),
    (b"\\x00\\xff\\xFF\\xaB", Some(b"\x00\xFF\xFF\xAB")),
    (b"\\x09\\x9f\\x90", Some(b"\x09\x9F\x90")),
    (b"\\x412", Some(b"A2")),
    (b"\\\\n", Some(b"\\n")),
    (b"\\\\x41", Some(b"\\x41")),
    (b"\\x5cn", Some(b"\\n")),
    (b"\\", None),
    (b"a\\", None),
    (b"\\\\\\", None),
    (b"\\x", None),
    (b"\\x4", None),
    (b"\\xg0", None),
    (b"\\x0g", None),
    (b"\\x/0", None),
    (b"\\x:0", None),
    (b"\\x@0", None),
    (b"\\x0`", None),
    (b"\\N", None),
    (b"\\X41", None),
];

#[test]
fn escapes(rt: HostRuntime) -> Result<(), Fail> {
    for (text, bytes) in ESCAPES {
        match (unescape(rt.alloc(), text), bytes) {
            (Ok(read), Some(bytes)) => assert_eq!(rt; read.as_slice(), bytes),
            (Err(fault), None) => assert_eq!(rt; fault, Fault::BadEscape),
            _ => return Err(Fail::new("an escape was read otherwise")),
        }
    }
    Ok(())
}

// Digits, a limit, and the number, if it is one within the limit.
const NUMBERS: [(&[u8], usize, Option<usize>); 18] = [
    (b"0", 0, Some(0)),
    (b"1", 0, None),
    (b"255", 255, Some(255)),
    (b"256", 255, None),
    (b"000255", 255, Some(255)),
    (b"0256", 255, None),
    (b"65535", 65535, Some(65535)),
    (b"65536", 65535, None),
    (
        b"18446744073709551615",
        18446744073709551615,
        Some(18446744073709551615),
    ),
    (b"18446744073709551616", 18446744073709551615, None),
    (
        b"99999999999999999999999999999999999999999999",
        18446744073709551615,
        None,
    ),
    (b"", 9, None),
    (b" 1", 9, None),
    (b"1 ", 9, None),
    (b"+1", 9, None),
    (b"-1", 9, None),
    (b"1/", 99, None),
    (b"1:", 99, None),
];

#[test]
fn numbers(rt: HostRuntime) {
    for (text, most, value) in NUMBERS {
        assert_eq!(rt; number(text, most).ok(), value);
    }
}

// The word of a line, and the bytes of its argument where that is a name or a string.
fn parts(line: &Line) -> (&'static str, &[u8]) {
    match line {
        Line::Blank => ("", b""),
        Line::New => ("new", b""),
        Line::Style(_) => ("style", b""),
        Line::Memory(_) => ("memory", b""),
        Line::Sink(_) => ("sink", b""),
        Line::Level(_) => ("level", b""),
        Line::Open(name) => ("open", name.as_slice()),
        Line::Field(key) => ("field", key.as_slice()),
        Line::Text(string) => ("text", string.as_slice()),
        Line::Nothing => ("none", b""),
        Line::Variant(name) => ("variant", name.as_slice()),
        Line::Wrapped(name) => ("wrapped", name.as_slice()),
        Line::Row => ("row", b""),
        Line::VariantRow(name) => ("variant-row", name.as_slice()),
        Line::Record(name) => ("record", name.as_slice()),
        Line::VariantRecord(name) => ("variant-record", name.as_slice()),
        Line::End => ("end", b""),
        Line::Finish => ("finish", b""),
        Line::Abandon => ("abandon", b""),
    }
}

// A line, its word and its argument.
const LINES: [(&[u8], &str, &[u8]); 29] = [
    (b"", "", b""),
    (b"#", "", b""),
    (b"# open sheet\\q", "", b""),
    (b"new", "new", b""),
    (b"style expanded", "style", b""),
    (b"memory 1 2 3", "memory", b""),
    (b"sink pages", "sink", b""),
    (b"level full", "level", b""),
    (b"open sheet", "open", b"sheet"),
    (b"open", "open", b""),
    (b"open ", "open", b""),
    (b"open  ", "open", b" "),
    (b"field @no", "field", b"@no"),
    (b"field $text", "field", b"$text"),
    (b"text Alp & Tal", "text", b"Alp & Tal"),
    (b"text", "text", b""),
    (b"text ", "text", b""),
    (b"text  # a b ", "text", b" # a b "),
    (b"text a\\nb\\x20\\\\", "text", b"a\nb \\"),
    (b"none", "none", b""),
    (b"variant red", "variant", b"red"),
    (b"wrapped way", "wrapped", b"way"),
    (b"row", "row", b""),
    (b"variant-row marks", "variant-row", b"marks"),
    (b"record part", "record", b"part"),
    (b"variant-record corner", "variant-record", b"corner"),
    (b"end", "end", b""),
    (b"finish", "finish", b""),
    (b"abandon", "abandon", b""),
];

// A line that says nothing a script may say, and why.
const FAULTS: [(&[u8], Fault); 34] = [
    (b" open", Fault::UnknownWord),
    (b"Open sheet", Fault::UnknownWord),
    (b"opens", Fault::UnknownWord),
    (b"ope", Fault::UnknownWord),
    (b"open\tsheet", Fault::UnknownWord),
    (b"end\r", Fault::UnknownWord),
    (b"variant_row", Fault::UnknownWord),
    (b"new ", Fault::UnwantedArgument),
    (b"none ", Fault::UnwantedArgument),
    (b"row x", Fault::UnwantedArgument),
    (b"end \\q", Fault::UnwantedArgument),
    (b"finish ", Fault::UnwantedArgument),
    (b"abandon now", Fault::UnwantedArgument),
    (b"text \\", Fault::BadEscape),
    (b"open \\q", Fault::BadEscape),
    (b"style \\x4", Fault::BadEscape),
    (b"style", Fault::BadSetting),
    (b"style ", Fault::BadSetting),
    (b"style Expanded", Fault::BadSetting),
    (b"style expanded ", Fault::BadNumber),
    (b"style expanded 32", Fault::BadNumber),
    (b"style expanded 256 1", Fault::BadNumber),
    (b"style expanded 32 65536", Fault::BadNumber),
    (b"style expanded 32 2 2", Fault::BadNumber),
    (b"style expanded  32 2", Fault::BadNumber),
    (b"memory", Fault::BadNumber),
    (b"memory 1 2", Fault::BadNumber),
    (b"memory 1 2 x", Fault::BadNumber),
    (b"memory 1 2 3 4", Fault::BadNumber),
    (b"sink", Fault::BadSetting),
    (b"sink pages 1", Fault::BadSetting),
    (b"sink buffer", Fault::BadNumber),
    (b"level", Fault::BadSetting),
    (b"level most", Fault::BadSetting),
];

// Whether a line is read as this word with this argument.
fn check_line(
    rt: &impl Abort,
    heap: Global,
    text: &[u8],
    word: &str,
    argument: &[u8],
) -> Result<(), Fail> {
    let line = read_line(heap, text)?;
    let (said, bytes) = parts(&line);
    assert_eq!(rt; said, word);
    assert_eq!(rt; bytes, argument);
    Ok(())
}

#[test]
fn lines(rt: HostRuntime) -> Result<(), Fail> {
    for (text, word, argument) in LINES {
        check_line(&rt, rt.alloc(), text, word, argument)?;
    }
    Ok(())
}

#[test]
fn faults(rt: HostRuntime) {
    for (text, fault) in FAULTS {
        assert_eq!(rt; read_line(rt.alloc(), text).err(), Some(fault));
    }
}

fn style(empty_elements: EmptyElementHandling, indentation: Option<Indentation>) -> Line {
    Line::Style(Layout {
        empty_elements,
        indentation,
    })
}

#[test]
fn styles(rt: HostRuntime) -> Result<(), Fail> {
    let heap = rt.alloc();
    let wide = Indentation {
        byte: 255,
        size: 65535,
    };
    assert_eq!(rt;
        read_line(heap, b"style self-closed")?,
        style(SelfClosed, None)
    );
    assert_eq!(rt;
        read_line(heap, b"style self-closed-with-space")?,
        style(SelfClosedWithSpace, None)
    );
    assert_eq!(rt;
        read_line(heap, b"style expanded 0 0")?,
        style(Expanded, Some(Indentation { byte: 0, size: 0 }))
    );
    assert_eq!(rt;
        read_line(heap, b"style expanded 255 65535")?,
        style(Expanded, Some(wide))
    );
    assert_eq!(rt;
        read_line(heap, b"style self-closed-with-space 9 1")?,
        style(SelfClosedWithSpace, Some(Indentation { byte: 9, size: 1 }))
    );
    assert_eq!(rt;
        read_line(heap, b"style self\\x2dclosed\\x2032\\x202")?,
        style(SelfClosed, Some(Indentation { byte: 32, size: 2 }))
    );
    Ok(())
}

#[test]
fn settings(rt: HostRuntime) -> Result<(), Fail> {
    let heap = rt.alloc();
    let sizes = Sizes {
        stage: 65536,
        names: 0,
        frames: 18446744073709551615,
    };
    assert_eq!(rt;
        read_line(heap, b"memory 65536 0 18446744073709551615")?,
        Line::Memory(sizes)
    );
    assert_eq!(rt;
        read_line(heap, b"sink buffer 12")?,
        Line::Sink(SinkChoice::Buffer(12))
    );
    let levels: [(&[u8], QuoteLevel); 3] = [
        (b"level full", QuoteLevel::Full),
        (b"level partial", QuoteLevel::Partial),
        (b"level minimal", QuoteLevel::Minimal),
    ];
    for (text, level) in levels {
        assert_eq!(rt; read_line(heap, text)?, Line::Level(level));
    }
    Ok(())
}

// A script, how many of its lines are read, and the fault of the line after these, if it has one.
const SCRIPTS: [(&[u8], usize, Option<Fault>); 19] = [
    (b"", 0, None),
    (b"\n", 1, None),
    (b"\n\n", 2, None),
    (b"#", 1, None),
    (b"open a\nend\nfinish\n", 3, None),
    (b"open a\nend\nfinish", 3, None),
    (
        b"open a\n\n# b\nend x\nend\n",
        3,
        Some(Fault::UnwantedArgument),
    ),
    (b"opn", 0, Some(Fault::UnknownWord)),
    (b"end\r\n", 0, Some(Fault::UnknownWord)),
    (b"text \\\nn", 0, Some(Fault::BadEscape)),
    (
        b"style expanded\nmemory 1 1 1\nsink pages\nopen a\n",
        4,
        None,
    ),
    (b"open a\nstyle expanded\n", 1, Some(Fault::TooLate)),
    (b"finish\nmemory 1 1 1\n", 1, Some(Fault::TooLate)),
    (
        b"none\n#\nlevel full\nsink pages\n",
        3,
        Some(Fault::TooLate),
    ),
    (b"open a\nnew\nstyle expanded\nsink pages\n", 4, None),
    (
        b"new\nopen a\nlevel full\nnew\nmemory 1 1 1\nrow\nsink pages",
        6,
        Some(Fault::TooLate),
    ),
    (b"level full\nlevel minimal\nstyle expanded", 3, None),
    (b"open a\nstyle none", 1, Some(Fault::BadSetting)),
    (b"new\nnew\nsink buffer 0\n", 3, None),
];

// The number of the last line before the end or the error, and the error.
fn run(heap: Global, text: &[u8]) -> (usize, Option<ScriptError>) {
    let mut script = Script::new(text);
    let mut last = 0;
    for _ in 0..9 {
        match script.next_line(heap) {
            Ok(Some(line)) => last = line.number,
            Ok(None) => return (last, None),
            Err(error) => return (last, Some(error)),
        }
    }
    (last, None)
}

#[test]
fn scripts(rt: HostRuntime) {
    for (text, read, fault) in SCRIPTS {
        let (last, error) = run(rt.alloc(), text);
        assert_eq!(rt; last, read);
        match error {
            None => assert_eq!(rt; fault, None),
            Some(error) => {
                assert!(rt; error.line > last && error.line - 1 == last);
                assert_eq!(rt; Some(error.fault), fault);
            }
        }
    }
}

#[test]
fn errors_are_told(rt: HostRuntime) -> Result<(), Fail> {
    for (fault, told) in MESSAGES {
        let shown = ScriptError { line: 7, fault }.to_string(rt.alloc())?;
        assert_eq!(rt; shown.as_str(), told);
    }
    Ok(())
}

const MESSAGES: [(Fault, &str); 7] = [
    (Fault::UnknownWord, "line 7: unknown word"),
    (
        Fault::UnwantedArgument,
        "line 7: this word takes no argument, not even a space",
    ),
    (Fault::BadEscape, "line 7: a backslash begins no escape"),
    (
        Fault::BadNumber,
        "line 7: a number is missing, too large or no number",
    ),
    (Fault::BadSetting, "line 7: no such form, sink or level"),
    (
        Fault::TooLate,
        "line 7: style, memory and sink stand before the first call",
    ),
    (Fault::Memory, "line 7: not enough memory"),
];
