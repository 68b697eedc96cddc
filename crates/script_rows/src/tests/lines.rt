//! Lines that are bad, long, or without their line feed, and the limit of entries.
use super::{prints, run};
use std::alloc::Global;
use std::process::Abort;
use std::test::Fail;

/// Lines that are bad ones after a host and a group.
const BAD: &str = "\
raw 1 1 a 0 1 0 put x 1
raw 1 1 a 1 0 0 put x 1
raw 1 1 a 1 18446744073709551614 0 put x 1
raw 1 1 a 1 1 18446744073709551614 put x 1
raw 1 1 a 18446744073709551616 1 0 put x 1
register 1 1 a s 0
register 1 1 a s
call 1 a s
call 0 a s put x 1
again 1 a
completed
close 1 a
register 1 1 a S 1
host 0
host 10
host 01
group 1 regular 0
group 1 regular 2,1
group 1 regular 1,1
group 1 regular 1,
group 1 regular 1,2,3,4,5,6,7,8
group 2 regular 1
group 1 concurrent 1
timeout 1 2
timeout 0 1
beat 1
ready 1 1 1
save 10 1
apply 1 1 0
apply 1 1 200001
deliver 1 18446744073709551616
deliver 1
wire 1 01
lose 2
settle 1 1";

/// Lines that are bad ones after a host.
const BAD_GROUPS: &str = "\
group 1 regular 1 0
group 1 regular 1 4097
group 1 regular 1 01";

/// A run takes whole lines alone: without its line feed `end` is a bad line, and after `end` nothing is
/// judged.
#[test]
fn lines_without_a_line_feed(rt: HostRuntime) -> Result<(), Fail> {
    let alloc = rt.alloc();
    prints(&rt, alloc, "host 1\nend", 3, "started 1 1\nbadline 2\n")?;
    prints(&rt, alloc, "end\nwhat follows is not judged", 0, "end\n")
}

/// After these lines each of the others is a bad one.
fn all_bad(
    rt: &impl Abort,
    alloc: Global,
    before: &str,
    lines: &str,
    wanted: &str,
) -> Result<(), Fail> {
    for line in lines.lines() {
        let script = format!(in alloc; "{before}{line}\nend\n")?;
        prints(rt, alloc, script.as_str(), 3, wanted)?;
    }
    Ok(())
}

#[test]
fn numbers_out_of_range(rt: HostRuntime) -> Result<(), Fail> {
    let alloc = rt.alloc();
    let group = "host 1\ngroup 1 regular 1 4096\n";
    all_bad(&rt, alloc, group, BAD, "started 1 1\nbadline 3\n")?;
    all_bad(
        &rt,
        alloc,
        "host 1\n",
        BAD_GROUPS,
        "started 1 1\nbadline 2\n",
    )
}

/// A script whose third line is an `ask` of `length` bytes in all.
fn long_line(alloc: Global, length: usize) -> Result<String, Fail> {
    let start = "ask 1 1 a put x ";
    let mut script = String::from_str(alloc, "host 1\ngroup 1 regular 1\n")?;
    script.push_str(start)?;
    for _ in start.len()..length {
        script.push_str("7")?;
    }
    script.push_str("\nend\n")?;
    Ok(script)
}

/// A line of this many bytes ends a run with this status, and prints this after the host.
fn long_prints(
    rt: &impl Abort,
    alloc: Global,
    length: usize,
    number: u8,
    end: &str,
) -> Result<(), Fail> {
    let script = long_line(alloc, length)?;
    let wanted = format!(in alloc; "started 1 1\n{end}")?;
    prints(rt, alloc, script.as_str(), number, wanted.as_str())
}

/// A command has at most 512 bytes, and a line 4,096.
#[test]
fn long_lines(rt: HostRuntime) -> Result<(), Fail> {
    let alloc = rt.alloc();
    let start = "ask 1 1 a ".len();
    long_prints(&rt, alloc, start + 513, 0, "refused 14\nend\n")?;
    long_prints(&rt, alloc, 4096, 0, "refused 14\nend\n")?;
    long_prints(&rt, alloc, 4097, 3, "badline 3\n")?;
    long_prints(&rt, alloc, 9000, 3, "badline 3\n")
}

#[test]
fn longest_command(rt: HostRuntime) -> Result<(), Fail> {
    let alloc = rt.alloc();
    let script = long_line(alloc, "ask 1 1 a ".len() + 512)?;
    let (status, text) = run(alloc, "run", script.as_str(), &[], &[])?;
    assert_eq!(rt; status.number, 0);
    assert!(rt; text.as_str().ends_with("7\ndropped a\nend\n"), "{text}");
    Ok(())
}

/// A script with a number of asks of one key.
fn asks(alloc: Global, count: u64) -> Result<String, Fail> {
    let mut script = String::from_str(alloc, "host 1\ngroup 1 regular 1\ntimeout 1 1\nsettle 1\n")?;
    for number in 1..=count {
        script.push_str(format!(in alloc; "ask 1 1 c{number} add n 1\n")?.as_str())?;
    }
    script.push_str("settle 1\n")?;
    Ok(script)
}

/// What it prints up to them.
fn asked(alloc: Global, count: u64) -> Result<String, Fail> {
    let mut printed = String::from_str(alloc, "started 1 1\nleader 1 1 1\n")?;
    for number in 1..=count {
        printed.push_str(format!(in alloc; "ask c{number} 1 add n 1\n")?.as_str())?;
    }
    Ok(printed)
}

/// With the blank entry of its leader a group has 200,000 entries.
#[test]
fn limit_of_entries(rt: HostRuntime) -> Result<(), Fail> {
    let alloc = rt.alloc();
    let script = asks(alloc, 199_999)?;
    let mut wanted = asked(alloc, 199_999)?;
    wanted.push_str("limit entries 200000\n")?;
    let (status, text) = run(alloc, "run", script.as_str(), &[], &[])?;
    assert_eq!(rt; status.number, 7);
    assert!(rt; text.as_str() == wanted.as_str());
    Ok(())
}

/// One entry fewer, and a run ends.
#[test]
fn one_below_the_limit(rt: HostRuntime) -> Result<(), Fail> {
    let alloc = rt.alloc();
    let mut script = asks(alloc, 199_998)?;
    script.push_str("read 1 1 r get n\nend\n")?;
    let (status, text) = run(alloc, "run", script.as_str(), &[], &[])?;
    assert_eq!(rt; status.number, 0);
    assert!(rt; text.as_str().starts_with(asked(alloc, 199_998)?.as_str()));
    let end = "done c199998 199999 199998\nask r 1 read get n\nread r 199999 199998\n";
    assert!(rt; text.as_str().contains(end));
    Ok(())
}
