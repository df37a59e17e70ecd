// What is known: facts in every order, twice, absorbed and copied; two values at one place. tests/program/listed.py has
// facts of few keys, in files that are joined.
use crate::facts::{add, copy_of, has_facts, is_at, is_count, knowledge_of, nothing};
use std::alloc::{AllocError, Global};
use std::process::Abort;
use std::test::Fail;
use zber_rows::rows::{each_row, halves, pair, unescape};
use zber_rows::unread::Unread;
use zknow::{Knowledge, Mode};
use zknow_rows::shown::{has_list, is_listed};

// What a search and two requests for records gave, the first for the positions 1 to 3, the second for 2 to 4.
const SEARCH: &str = "count 0 1 4";

const FIRST: &str = "seen 0 1 1 r1\nseen 0 1 2 ~r2\nseen 0 1 3 r3";

const SECOND: &str = "seen 0 1 2 r2\nseen 0 1 3 ~r3\nseen 0 1 4 r4";

// The second with another record at its first position.
const OTHER: &str = "seen 0 1 2 x2\nseen 0 1 3 ~r3\nseen 0 1 4 r4";

const AGREED: &str = r#"target "a" set 1 count 4
1 "a" 1 rec 1.2.840.10003.5.10 - "r1"
2 "a" 1 rec 1.2.840.10003.5.10 - "r2"
3 "a" 1 rec 1.2.840.10003.5.10 - "r3"
4 "a" 1 rec 1.2.840.10003.5.10 - "r4"
"#;

const CONFLICT: &str = r#"target "a" set 1 count 4
1 "a" 1 rec 1.2.840.10003.5.10 - "r1"
2 "a" 1 conflict 2
  rec 1.2.840.10003.5.10 - "r2"
  rec 1.2.840.10003.5.10 - "x2"
3 "a" 1 rec 1.2.840.10003.5.10 - "r3"
4 "a" 1 rec 1.2.840.10003.5.10 - "r4"
"#;

// The order of so many rows that has this number among all their orders, as the places of the rows.
fn order(alloc: Global, count: usize, number: usize) -> Result<Vec<usize>, AllocError> {
    let left: Result<Vec<usize>, AllocError> = (0..count).collect(alloc);
    let Ok(mut left) = left else {
        return Err(AllocError);
    };
    let mut order = Vec::new(alloc);
    let mut number = number;
    for _ in 0..count {
        let at = number.checked_rem(left.len()).unwrap_or(0);
        number = number.checked_div(left.len()).unwrap_or(0);
        if at < left.len() && order.push(left.remove(at)).is_err() {
            return Err(AllocError);
        }
    }
    Ok(order)
}

fn add_at(
    alloc: Global,
    knowledge: &mut Knowledge,
    rows: &[&str],
    place: usize,
) -> Result<(), Unread> {
    match rows.get(place) {
        Some(row) => add(alloc, knowledge, row),
        None => Err(Unread),
    }
}

fn add_in_order(
    alloc: Global,
    knowledge: &mut Knowledge,
    rows: &[&str],
    places: &[usize],
) -> Result<(), Unread> {
    for place in places {
        if add_at(alloc, knowledge, rows, *place).is_err() {
            return Err(Unread);
        }
    }
    Ok(())
}

fn is_list_of(alloc: Global, rows: &[&str], places: &[usize], due: &str) -> bool {
    let Ok(mut knowledge) = nothing(alloc) else {
        return false;
    };
    add_in_order(alloc, &mut knowledge, rows, places).is_ok()
        && is_listed(alloc, &knowledge, "a", Mode::Text, due)
}

// Whether rows have the list in the order of this number.
fn is_list_in_order(alloc: Global, rows: &[&str], number: usize, due: &str) -> bool {
    let Ok(places) = order(alloc, rows.len(), number) else {
        return false;
    };
    is_list_of(alloc, rows, places.as_slice(), due)
}

// In how many of the first orders rows have the list.
fn orders(alloc: Global, rows: &[&str], count: usize, due: &str) -> usize {
    let mut same = 0usize;
    for number in 0..count {
        if is_list_in_order(alloc, rows, number, due) {
            same = same.saturating_add(1);
        }
    }
    same
}

// In how many orders the seven facts of a search and two requests have the list.
fn orders_of(alloc: Global, first: &str, second: &str, due: &str) -> Result<usize, Unread> {
    let Ok(text) = format!(in alloc; "{SEARCH}\n{first}\n{second}") else {
        return Err(Unread);
    };
    let rows: Result<Vec<&str>, AllocError> = text.as_str().lines().collect(alloc);
    match rows {
        Ok(rows) => Ok(orders(alloc, rows.as_slice(), 5040, due)),
        Err(_) => Err(Unread),
    }
}

#[test]
fn records_that_agree_have_one_list_in_every_order(rt: HostRuntime) -> Result<(), Fail> {
    assert!(rt; matches!(orders_of(rt.alloc(), FIRST, SECOND, AGREED), Ok(5040)));
    Ok(())
}

#[test]
fn records_that_differ_have_one_list_in_every_order(rt: HostRuntime) -> Result<(), Fail> {
    assert!(rt; matches!(orders_of(rt.alloc(), FIRST, OTHER, CONFLICT), Ok(5040)));
    Ok(())
}

// Adds the fact of a row, once more where memory was refused.
fn adds(alloc: Global, knowledge: &mut Knowledge, row: &str) -> bool {
    add(alloc, knowledge, row).is_ok() || add(alloc, knowledge, row).is_ok()
}

// Whether a knowledge absorbs another and has the list then, each once more where memory was refused.
fn unites(alloc: Global, knowledge: &mut Knowledge, other: &Knowledge, due: &str) -> bool {
    (knowledge.absorb(other).is_ok() || knowledge.absorb(other).is_ok())
        && (is_listed(alloc, knowledge, "a", Mode::Text, due)
            || is_listed(alloc, knowledge, "a", Mode::Text, due))
}

// With ample memory each step is made once. Where one of its allocations is refused, the step is made again, and all
// facts are known then; and to absorb them once more adds none.
#[test]
fn what_is_known_grows_where_memory_was_refused(rt: HostRuntime) -> Result<(), Fail> {
    let other = knowledge_of(rt.alloc(), OTHER)?;
    let mut knowledge = nothing(rt.alloc())?;
    assert!(rt; adds(rt.alloc(), &mut knowledge, SEARCH));
    for row in FIRST.lines() {
        assert!(rt; adds(rt.alloc(), &mut knowledge, row), "{row}");
    }
    assert!(rt; unites(rt.alloc(), &mut knowledge, &other, CONFLICT));
    assert!(rt; unites(rt.alloc(), &mut knowledge, &other, CONFLICT));
    Ok(())
}

// Rows of facts with a semicolon behind each, a question, and its answer.
const ANSWERS: &str = "\
# Nothing is known at first.
 => at 1 =>  nothing
 => count 0 1 =>  nothing
 => facts - =>\x20
 => list a =>\x20
# Two spellings of one record are one.
seen 0 1 1 hi;seen 0 1 1 ~hi; => at 1 =>  one 3013a111a10f280d06072a8648ce13050a81026869
seen 0 1 1 hi;seen 0 1 1 ~hi; => at 2 =>  nothing
seen 0 1 1 hi;seen 0 1 1 3015a113a1112882000d06072a8648ce13050a81026869; => at 1 =>  one 3013a111a10f280d06072a8648ce13050a81026869
seen 0 1 1 hi;seen 0 1 1 ~hi; => list a => 1 \"a\" 1 rec 1.2.840.10003.5.10 - \"hi\"%0a
seen 0 1 1 hi;seen 0 1 1 3017a115a113281106072a8648ce13050aa106040168040169; => at 1 =>  one 3013a111a10f280d06072a8648ce13050a81026869
# Records and counts in conflict stand in order.
seen 0 1 1 x2;seen 0 1 1 r2;seen 0 1 1 ~x2; => at 1 =>  conflict 3013a111a10f280d06072a8648ce13050a81027232 3013a111a10f280d06072a8648ce13050a81027832
seen 0 1 1 x2;seen 0 1 1 r2;seen 0 1 1 ~x2; => list a => 1 \"a\" 1 conflict 2%0a  rec 1.2.840.10003.5.10 - \"r2\"%0a  rec 1.2.840.10003.5.10 - \"x2\"%0a
count 0 1 5;count 0 1 4;count 0 1 5;count 1 1 0; => count 0 1 =>  conflict 4 5
count 0 1 5;count 0 1 4;count 0 1 5;count 1 1 0; => count 1 1 =>  one 0
count 0 1 5;count 0 1 4;count 0 1 5;count 1 1 0; => count 0 2 =>  nothing
count 0 1 5;count 0 1 4;count 0 1 5;count 1 1 0; => list a b => target \"a\" set 1 count 4%0atarget \"a\" set 1 count 5%0atarget \"b\" set 1 count 0%0a
# Facts stand in order, and once.
seen 0 1 4 r4;seen 0 1 2 r2;count 0 1 4;seen 0 1 3 r3;seen 0 1 2 ~r2;seen 0 1 1 r1;seen 0 1 4 r4;count 0 1 4; => facts - =>  count 0 1 4 seen 0 1 1 3013a111a10f280d06072a8648ce13050a81027231 seen 0 1 2 3013a111a10f280d06072a8648ce13050a81027232 seen 0 1 3 3013a111a10f280d06072a8648ce13050a81027233 seen 0 1 4 3013a111a10f280d06072a8648ce13050a81027234
# Each kind of fact, of record and of diagnostic, of several targets and sets: counts, failures, records, diagnostics.
seen 2 1 3 3014800164a10fa10d280b06072a8648ce13050a8100;seen 0 1 3 3016800164a111a10f280d06072a8648ce13050a8102225c;seen 0 2 1 301a800164a115a213301106072a8648ce130401020200ee1b02225c;seen 0 1 2 300ca10aa1082806020105810161;seen 0 1 1 3013a111a10f280d06072a8648ce13050a81020aff;seen 1 1 1 3005a103830161;failed 2 0 -;failed 0 1 -;count 0 2 3;count 0 1 7;diag 0 1 4 301006072a8648ce13040102010d1b026869;diag 0 1 0 301006072a8648ce13040102010e1a026869;diag 0 1 0 28048102686a;diag 1 1 0 300e06072a8648ce13040102010d1a00; => facts - =>  count 0 1 7 count 0 2 3 failed 0 1 failed 2 0 seen 0 1 1 3013a111a10f280d06072a8648ce13050a81020aff seen 0 1 2 300ca10aa1082806020105810161 seen 0 1 3 3016800164a111a10f280d06072a8648ce13050a8102225c seen 0 2 1 301a800164a115a213301106072a8648ce130401020200ee1b02225c seen 1 1 1 3005a103830161 seen 2 1 3 3014800164a10fa10d280b06072a8648ce13050a8100 diag 0 1 0 28048102686a diag 0 1 0 301006072a8648ce13040102010e1a026869 diag 0 1 4 301006072a8648ce13040102010d1b026869 diag 1 1 0 300e06072a8648ce13040102010d1a00
";

// The count of a target's set.
fn is_count_of(alloc: Global, knowledge: &Knowledge, row: &str, due: &str) -> Result<bool, Unread> {
    let (target, set) = pair(row);
    let Ok(target) = target.parse::<u32>() else {
        return Err(Unread);
    };
    let Ok(set) = set.parse::<u32>() else {
        return Err(Unread);
    };
    Ok(is_count(alloc, knowledge, target, set, due))
}

fn is_record(alloc: Global, knowledge: &Knowledge, row: &str, due: &str) -> Result<bool, Unread> {
    let Ok(position) = row.parse::<i64>() else {
        return Err(Unread);
    };
    Ok(is_at(alloc, knowledge, position, due))
}

// The list of a copy.
fn is_list(alloc: Global, knowledge: &Knowledge, names: &str, due: &str) -> Result<bool, Unread> {
    let due = unescape(alloc, due)?;
    let copy = copy_of(alloc, knowledge)?;
    Ok(has_list(alloc, &copy, names, Mode::Text, due.as_slice()))
}

fn is_answer(
    alloc: Global,
    knowledge: &Knowledge,
    question: &str,
    due: &str,
) -> Result<bool, Unread> {
    let (word, rest) = pair(question);
    match word {
        "at" => is_record(alloc, knowledge, rest, due),
        "count" => is_count_of(alloc, knowledge, rest, due),
        "facts" => has_facts(alloc, knowledge, due),
        _ => is_list(alloc, knowledge, rest, due),
    }
}

fn is_answered(alloc: Global, row: &str) -> Result<bool, Unread> {
    let (facts, rest) = halves(row);
    let (question, due) = halves(rest);
    let Ok(rows) = facts.replace(alloc, ";", "\n") else {
        return Err(Unread);
    };
    let Ok(knowledge) = knowledge_of(alloc, rows.as_str()) else {
        return Err(Unread);
    };
    is_answer(alloc, &knowledge, question, due)
}

#[test]
fn questions_are_answered_as_told(rt: HostRuntime) -> Result<(), Fail> {
    each_row(rt.alloc(), ANSWERS, is_answered)
}
