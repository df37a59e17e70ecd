// Calls that other calls make: the rows of the list; and what is known, through the trait of what can be joined. Worked
// out from docs/FORMATS.md.
use crate::facts::{fact, has_facts, knowledge_of, nothing};
use std::alloc::{AllocError, Global};
use std::process::Abort;
use std::test::Fail;
use zapdu_rows::boxes::box_value;
use zber_rows::rows::{each_row, split_row, tells};
use zber_rows::unread::Unread;
use zknow::{Join, Knowledge, RowKey};

// What is known of facts with `; ` between each two.
fn known(alloc: Global, facts: &str) -> Result<Box<Knowledge>, Unread> {
    let rows = facts.replace(alloc, "; ", "\n")?;
    knowledge_of(alloc, rows.as_str())
}

// Facts, and the rows of their list: position, target and set of each, with a space before it.
const ROWS: &str = "\
seen 1 1 2 r1; seen 0 2 1 r2; seen 0 1 2 r3; seen 0 1 1 r4 => 1/0/1 1/0/2 2/0/1 2/1/1
# Several records at a position have one row; what is no record has none.
seen 0 1 7 r1; seen 0 1 7 x1; count 0 1 9; failed 0 2 -; diag 0 1 8 300e06072a8648ce13040102010d1a00 => 7/0/1
count 0 1 4; failed 0 1 - =>
";

fn put_row(alloc: Global, row: &RowKey, out: &mut String) -> Result<(), AllocError> {
    let text = format!(in alloc; " {}/{}/{}", row.position, row.target, row.set)?;
    out.push_str(text.as_str())
}

fn rows_text(alloc: Global, knowledge: &Knowledge) -> Result<String, AllocError> {
    let rows = knowledge.rows()?;
    let mut out = String::new(alloc);
    for row in &rows {
        put_row(alloc, row, &mut out)?;
    }
    Ok(out)
}

fn has_rows(alloc: Global, row: &str) -> Result<bool, Unread> {
    let (facts, due) = split_row(row, " =>");
    let knowledge = known(alloc, facts)?;
    Ok(tells(rows_text(alloc, &knowledge), due))
}

#[test]
fn positions_of_records_are_rows(rt: HostRuntime) -> Result<(), Fail> {
    each_row(rt.alloc(), ROWS, has_rows)
}

// A value with one item.
fn one_item<T: Join>(alloc: Global, item: &T::Item) -> Result<T, AllocError>
    requires { T.can_add item.now }
{
    let mut one = T::empty(alloc);
    one.add(item)?;
    Ok(one)
}

// A value with the items of two.
fn joined<T: Join>(alloc: Global, first: &T, second: &T) -> Result<T, AllocError> {
    let mut both = T::empty(alloc);
    both.absorb(first)?;
    both.absorb(second)?;
    both.lawful();
    Ok(both)
}

// Facts that are joined one by one, and all that is then known, with a space before each.
const JOINED: &str = "\
seen 0 1 2 x1; seen 0 1 2 r1; count 0 1 4; failed 1 1 -; count 0 1 4; seen 0 1 2 ~r1 => \
count 0 1 4 failed 1 1 \
seen 0 1 2 3013a111a10f280d06072a8648ce13050a81027231 seen 0 1 2 3013a111a10f280d06072a8648ce13050a81027831
diag 0 1 3 300e06072a8648ce13040102010d1a00; count 1 1 0; failed 0 2 -; count 0 1 5 => \
count 0 1 5 count 1 1 0 failed 0 2 diag 0 1 3 300e06072a8648ce13040102010d1a00
failed 0 0 - => failed 0 0
";

fn known_alone(alloc: Global, row: &str) -> Result<Box<Knowledge>, Unread> {
    let fact = fact(alloc, row)?;
    let one = one_item(alloc, &fact)?;
    Ok(box_value(alloc, one)?)
}

fn join_two(
    alloc: Global,
    first: &Knowledge,
    second: &Knowledge,
) -> Result<Box<Knowledge>, AllocError> {
    let both = joined(alloc, first, second)?;
    box_value(alloc, both)
}

fn join_all(alloc: Global, facts: &str) -> Result<Box<Knowledge>, Unread> {
    let mut whole = nothing(alloc)?;
    for row in facts.split("; ") {
        let one = known_alone(alloc, row)?;
        whole = join_two(alloc, &whole, &one)?;
    }
    Ok(whole)
}

fn is_joined(alloc: Global, row: &str) -> Result<bool, Unread> {
    let (facts, due) = split_row(row, " =>");
    let whole = join_all(alloc, facts)?;
    has_facts(alloc, &whole, due)
}

#[test]
fn values_of_the_trait_are_joined(rt: HostRuntime) -> Result<(), Fail> {
    each_row(rt.alloc(), JOINED, is_joined)
}
