use crate::judge::judge;
use crate::sections::sections;
use std::test::Fail;

/// Inputs with `/` between their lines, each with a bad line, and what is said of it.
const BAD_INPUTS: [(&str, &str); 20] = [
    ("# a comment//idle", "line 3: no section has begun"),
    (
        "= list 1 a",
        "line 1: a section is an `output` or a `script`",
    ),
    (
        "=  output 1 a",
        "line 1: a section is an `output` or a `script`",
    ),
    (
        "= output 0 a/end",
        "line 1: a limit of sessions is a number from 1 to 4096",
    ),
    (
        "= output 4097 a/end",
        "line 1: a limit of sessions is a number from 1 to 4096",
    ),
    (
        "= output 1 a/end/= script 1",
        "line 3: the section has no name",
    ),
    ("= output 1 a/idle", "line 2: an output ends with `end`"),
    ("= output 1 a", "line 2: an output ends with `end`"),
    (
        "= output 1 a/end/idle/end",
        "line 2: no line of an output begins so",
    ),
    (
        "= output 1 a/idle/kept 1/end",
        "line 3: no line of an output begins so",
    ),
    (
        "= output 1 a/done a 2/end",
        "line 2: a word is missing, or is one too many",
    ),
    (
        "= output 1 a/dropped a b/end",
        "line 2: a word is missing, or is one too many",
    ),
    (
        "= output 1 a/rejected a 1 -/end",
        "line 2: a word should be a number",
    ),
    (
        "= output 1 a/stale 1 1 0 -/end",
        "line 2: no line of the script asks for this",
    ),
    (
        "= output 1 a/> stale 1 1 get x/stale 2 1 0 -/end",
        "line 3: no line of the script asks for this",
    ),
    (
        "= output 1 a/> stale 1 1 put x 1/stale 1 1 0 -/end",
        "line 3: this is neither a proposal nor a read",
    ),
    (
        "= output 1 a/> stale 1 1 get x/stale 1 1 0/end",
        "line 3: a word is missing, or is one too many",
    ),
    (
        "= output 1 a/ask a 2 put x 1/end",
        "line 2: the only group is 1",
    ),
    (
        "= output 1 a/ask a 1 put X 1/end",
        "line 2: this is neither a proposal nor a read",
    ),
    (
        "= output 1 a/entry 1 1 a read get x/end",
        "line 2: this is neither a proposal nor a read",
    ),
];

/// What the program prints of an input with `/` between its lines.
fn said(rt: &HostRuntime, input: &str) -> Result<String, Fail> {
    let alloc = rt.alloc();
    let input = input.replace(alloc, "/", "\n")?;
    let sections = match sections(alloc, input.as_str()) {
        Ok(sections) => sections,
        Err(fault) => return Ok(format!(in alloc; "{fault}")?),
    };
    let mut text = String::new(alloc);
    for section in &sections {
        match judge(alloc, section) {
            Ok(finding) => text.push_str(format!(in alloc; "{finding}/")?.as_str())?,
            Err(fault) => return Ok(format!(in alloc; "{fault}")?),
        }
    }
    Ok(text)
}

#[test]
fn bad_lines_are_named(rt: HostRuntime) -> Result<(), Fail> {
    for (input, wanted) in BAD_INPUTS {
        assert_eq!(rt; said(&rt, input)?.as_str(), wanted, "{input}");
    }
    Ok(())
}

#[test]
fn scripts_are_run(rt: HostRuntime) -> Result<(), Fail> {
    let script =
        "= script 1 one voter/# a comment/host 1/group 1 regular 1 1//timeout 1 1/settle 1/register 1 1 r s 5/ask 1 1 a put x 5/settle 1/read 1 1 b get x/end";
    assert_eq!(rt;
        said(&rt, script)?.as_str(),
        "legal one voter: 9 lines, 3 entries, 2 done, 1 reads, 0 stale, 1 leaders/"
    );
    let bad = "= script 1 a bad line/host 1/hots 2/end/= script 1 no end/host 1";
    assert_eq!(rt;
        said(&rt, bad)?.as_str(),
        "status 3 a bad line/status 3 no end/"
    );
    Ok(())
}
