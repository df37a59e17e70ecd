// What reads the tables, on tables in which a row does not hold.
use std::alloc::Global;
use std::io::Eprint;
use std::process::{Abort, ExitCode, Termination};
use std::test::Fail;
use zber_rows::rows::each_row;
use zber_rows::unread::Unread;

// A row says whether it holds, and any other row cannot be read.
fn says(_alloc: Global, row: &str) -> Result<bool, Unread> {
    match row {
        "true" => Ok(true),
        "false" => Ok(false),
        _ => Err(Unread),
    }
}

// Whether a test of a table passes.
fn passes<R: Eprint>(rt: &R, alloc: Global, rows: &str) -> bool {
    each_row(alloc, rows, says).report(rt) == ExitCode::SUCCESS
}

#[test]
fn a_table_passes_where_each_row_holds(rt: HostRuntime) -> Result<(), Fail> {
    for rows in ["true", "true\ntrue\ntrue\n", "# false\ntrue\n#\ntrue\n"] {
        assert!(rt; passes(&rt, rt.alloc(), rows), "{rows}");
    }
    Ok(())
}

#[test]
fn a_table_fails_where_a_row_does_not_hold(rt: HostRuntime) -> Result<(), Fail> {
    for rows in [
        "false",
        "false\ntrue\ntrue\n",
        "true\nfalse\ntrue\n",
        "true\ntrue\nfalse\n",
        "true\ntrue\nfalse",
        "true\n# true\nfalse\n",
        "other\ntrue\n",
        "true\nother\ntrue\n",
        "true\ntrue\nother\n",
    ] {
        assert!(rt; !passes(&rt, rt.alloc(), rows), "{rows}");
    }
    Ok(())
}
