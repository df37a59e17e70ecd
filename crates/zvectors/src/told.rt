// What is told of lines of world files that are refused, and of a query that has no text. No command tells this today.
use std::alloc::Global;
use std::process::Abort;
use std::test::Fail;
use zber_rows::rows::{each_row, halves, pair, unescape};
use zber_rows::unread::Unread;
use zmeta_devices::fault::{Fault, Status};
use zmeta_devices::output::Output;
use zmeta_explain::put_line_words;

// The number of a line, the world that has it, and the words for it.
const LINES: &str = "\
1 %ef%bb%bfhost a b:210 => line 1 begins with a byte order mark; save the file as UTF-8 without one
1 # mine => line 1 is a comment, which these files cannot have
1 Host a b:210 => line 1 begins with \"Host\"; write host in lower case
1 server a b:210 => line 1 begins with \"server\"; lines begin with host, ask, step, window, target, db, rec, field, to, rel or from
2 host a b:210%0ahost a c:210 => line 2 gives the name \"a\" again; each host and target has another
1 host city library b:210 => line 1 has too many fields; put a name of several words in quotes
1 host a => line 1 has too few fields; write host NAME ADDRESS
1 ask a db - 5 dune => line 1 asks \"a\", and no line above is its host or target
2 host a b:210%0aask a db usmarc 5 dune => line 2 has the syntax \"usmarc\"; write 1.2.840.10003.5.10 in its place
2 host a b:210%0aask a db danmarc 5 dune => line 2 has the syntax \"danmarc\"; write a dotted OID, or - for none
2 host a b:210%0aask a db - five dune => line 2 wants the records \"five\"; write a number, or ranges that ascend, as 20 or 1-3,10-12
2 host a b:210%0aask a db - 5 frank herbert => line 2 has too many fields; put the query in quotes
2 host a b:210%0aask a db - 5 'frank herbert' => line 2 has quotes of another kind; write \" on both sides of the words
2 host a b:210%0aask a db - 5 => line 2 has too few fields; write ask NAME DB SYNTAX WANT QUERY
2 host a b:210%0aask a db - 5-1 dune => line 2 wants the records \"5-1\"; write the lower number of a range first, as 20 or 1-3,10-12
2 host a b:210%0aask a db - 0-3 dune => line 2 wants the records \"0-3\"; count them from 1, as 20 or 1-3,10-12
3 host a b:210%0aask a db - 5 dune%0aask a db - 5 dune => line 3 is wrong in its ranges or its query, or asks \"a\" again; zmeta pqf tries a query
1 step 2000 => line 1 is not as it has to be; write step N, of 1 to 1000 there
1 db books => line 1 is not as it has to be; write db NAME, below a target, with a name of its own there
";

fn words_of(alloc: Global, line: &str) -> Result<Vec<u8>, Unread> {
    let (number, world) = pair(line);
    let Ok(number) = number.parse::<u64>() else {
        return Err(Unread);
    };
    let Ok(world) = unescape(alloc, world) else {
        return Err(Unread);
    };
    let mut words = Vec::new(alloc);
    if put_line_words(alloc, world.as_slice(), number, &mut words).is_err() {
        return Err(Unread);
    }
    Ok(words)
}

fn is_explained(alloc: Global, row: &str) -> Result<bool, Unread> {
    let (line, due) = halves(row);
    Ok(words_of(alloc, line)?.as_slice() == due.as_bytes())
}

#[test]
fn a_refused_line_has_its_words(rt: HostRuntime) -> Result<(), Fail> {
    each_row(rt.alloc(), LINES, is_explained)
}

#[test]
fn a_query_without_a_text_is_told(rt: HostRuntime) {
    let mut told = Vec::new(rt.alloc());
    let status = Fault::NotPrintable.report(&mut Output::new("-", &mut told));
    assert!(rt; status == Status::Refused);
    assert!(rt; told.as_slice() == b"zmeta: not printable\n".as_slice());
}
