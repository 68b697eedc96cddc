use crate::verdict::judge;
use std::test::Fail;

/// Texts of files, and what is found of each.
const FOUND: [(&str, &str); 13] = [
    ("# w\nhost 1\n    started 1 1\nend\n    end\n", "ok it"),
    ("# w\n# w\nbad\n    badline 1\n= status 3\n", "ok it"),
    (
        "# w\nhost 1\n    started 1 1\n= status 3\n    badline 2\n",
        "ok it",
    ),
    (
        "# w\nhost 1\n    started 1 2\nend\n    end\n",
        "differs it: line 3 of the file: wanted `started 1 2`, printed `started 1 1`",
    ),
    (
        "# w\nhost 1\nend\n    end\n",
        "differs it: line 2 of the file: wanted nothing, printed `started 1 1`",
    ),
    (
        "# w\nhost 1\n    started 1 1\n    idle\nend\n    end\n",
        "differs it: line 4 of the file: wanted `idle`, printed nothing",
    ),
    (
        "# w\nhost 1\nhost 2\n    started 1 1\n    started 2 1\nend\n    end\n",
        "differs it: line 2 of the file: wanted nothing, printed `started 1 1`",
    ),
    (
        "# w\nhost 1\n    started 1 1\n",
        "differs it: line 3 of the file: wanted nothing, printed `badline 2`",
    ),
    (
        "# w\nend\n    end\n= status 3\n",
        "differs it: line 4 of the file: wanted status 3, ended with status 0",
    ),
    (
        "# w\nbad\n    badline 1\n",
        "differs it: line 3 of the file: wanted status 0, ended with status 3",
    ),
    (
        "# w\n    end\n",
        "flawed it: line 2 of the file: an output stands below no line",
    ),
    (
        "# w\nend\n    end\n= status 0\nend\n",
        "flawed it: line 5 of the file: a line stands below the status",
    ),
    (
        "# w\nend\n    end\n= status 256\n",
        "flawed it: line 4 of the file: a status is `= status N`, with N from 0 to 255",
    ),
];

#[test]
fn what_is_found(rt: HostRuntime) -> Result<(), Fail> {
    for (text, found) in FOUND {
        let verdict = judge(rt.alloc(), "it", text)?;
        let printed = format!(in rt.alloc(); "{verdict}")?;
        assert_eq!(rt; printed.as_str(), found, "{text}");
        assert_eq!(rt; verdict.is_right(), found.starts_with("ok"), "{text}");
    }
    Ok(())
}
