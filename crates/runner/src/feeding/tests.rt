// Scripts at the edges, with what goes to standard output and to standard error.
use super::Feeding;
use super::Output::{self, Plain, Trace};
use crate::stop::Stop;
use std::test::Fail;

// A script, the output that is asked for, what is written to the two outputs, and the error that stops the run.
const SCRIPTS: [(&str, Output, &str, &str, &str); 18] = [
    ("", Plain, "", "", ""),
    ("", Trace, "", "", ""),
    ("\n# nothing\n", Trace, "", "", ""),
    ("new", Trace, "sink 0 65536\nbytes \n", "", ""),
    ("level full", Trace, "sink 0 65536\nbytes \n", "", ""),
    ("sink pages\n", Trace, "sink 0 4096\nbytes \n", "", ""),
    (
        "open a\nend\nfinish\nnew\nend",
        Trace,
        "accepted\naccepted\naccepted\nsink 4 65532\nbytes 3c612f3e\nrefused 1 0\nsink 0 65536\nbytes \n",
        "",
        "",
    ),
    ("open \\x62\nend\nfinish", Plain, "<b/>", "", ""),
    (
        "open a\\",
        Plain,
        "",
        "",
        "line 1: a backslash begins no escape",
    ),
    (
        "style expanded\nstyle self-closed 10 2\nopen a\nnew\nopen b\nend\nfinish\n",
        Plain,
        "<b/>",
        "line 2: refusal 10 Style at 0\n",
        "",
    ),
    (
        "style self-closed 9 17\nopen a\nend\n",
        Trace,
        "refused 10 0\n",
        "",
        "",
    ),
    (
        "memory 0 0 0\nsink buffer 0\nopen a",
        Trace,
        "refused 6 0\nsink 0 0\nbytes \n",
        "",
        "",
    ),
    (
        "memory 3 1 1\nopen a\nend\nfinish",
        Plain,
        "",
        "line 3: refusal 8 Stage at 0\nline 4: refusal 1 Order at 0\n",
        "",
    ),
    (
        "open a\nend\nfinish\nnew\nmemory 18446744073709551615 0 0\nopen b\nnew\nopen c\n",
        Plain,
        "<a/>",
        "",
        "line 5: not enough memory",
    ),
    (
        "\nsink buffer 18446744073709551615",
        Trace,
        "",
        "",
        "line 2: not enough memory",
    ),
    (
        "open a\nend\nfinish\nnew\nend\nEnd\n",
        Plain,
        "<a/>",
        "line 5: refusal 1 Order at 0\n",
        "line 6: unknown word",
    ),
    (
        "new\nend\nsink pages",
        Trace,
        "",
        "",
        "line 3: style, memory and sink stand before the first call",
    ),
    (
        "level minimal\nopen a\nfield @b\ntext '\nlevel full\nfield @c\ntext '\nnew\nlevel odd",
        Plain,
        "",
        "",
        "line 9: no such form, sink or level",
    ),
];

#[test]
fn scripts(rt: HostRuntime) -> Result<(), Fail> {
    let heap = rt.alloc();
    for (script, output, out, err, error) in SCRIPTS {
        let mut feeding = Feeding::new(heap, output, Vec::new(heap), Vec::new(heap));
        let told = match feeding.feed(script.as_bytes()) {
            Ok(()) => String::new(heap),
            Err(Stop::Script(error)) => error.to_string(heap)?,
            Err(Stop::Io(error)) => error.to_string(heap)?,
        };
        assert_eq!(rt; feeding.out.as_slice(), out.as_bytes(), "in {script:?}");
        assert_eq!(rt; feeding.err.as_slice(), err.as_bytes(), "in {script:?}");
        assert_eq!(rt; told.as_str(), error, "in {script:?}");
    }
    Ok(())
}
