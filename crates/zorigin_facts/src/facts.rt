//! The facts of an answer, about the target's result sets.
ghost use Rattle.std.specs.Prelude.{◌≡◌, true, ◌++◌, ℤ, pos, ◌+ℤ◌, ◌≤ℤ◌, ◌<ℤ◌, length, IfOk, OnOk};
ghost use Rattle.zknow.specs.declared.fact.Fact.TheVariants.{Seen};
ghost use Rattle.zorigin.specs.Ranges.{are_ranges};
ghost use Rattle.zplan.specs.Ranges.{positions};
ghost use Rattle.zorigin.specs.Answers.{IsFitAnswer};
ghost use Rattle.zorigin_facts.specs.Facts.{seen_from, seen_at, diagnostic_facts, count_or_failed, init_facts, search_facts, present_facts, facts_of};
ghost use Rattle.zorigin.specs.Fitting.{records_in, diagnostics_in};

use std::alloc::{AllocError, Global};
use zapdu::{Apdu, DiagRec, InitResponse, PresentResponse, Record, Records, SearchResponse};
use zber::Duplicate;
use zknow::Fact;
use zorigin::{Answer, What, first_of, natural, records_in};
use zplan::Range;

/// The fact of a record at position `first + index`.
fn seen_at(
    alloc: Global,
    target: u32,
    set: u32,
    first: i64,
    index: usize,
    shown: &Record,
) -> Result<Fact, AllocError>
    requires low { pos 0 ≤ℤ first }
    requires high { (first +ℤ pos index) <ℤ pos 9223372036854775808 }
    ensures { IfOk result (λ fact. fact ≡ Seen target set (first +ℤ pos index) shown.now) }
{
    Ok(Fact::Seen {
        target,
        set,
        position: first + index as i64,
        rec: shown.copy(alloc)?,
    })
}

/// Appends the facts of records at consecutive positions, the first of them at `first`.
fn put_seen(
    alloc: Global,
    target: u32,
    set: u32,
    first: i64,
    records: &[Record],
    out: &mut Vec<Fact>,
) -> Result<(), AllocError>
    requires low { pos 0 ≤ℤ first }
    requires high { (first +ℤ pos (length records.now)) <ℤ pos 9223372036854775809 }
    ensures { OnOk result (out.new.items ≡ out.old.items ++ seen_from target set first records.now) }
{
    for (index, shown) in records.iter().enumerate() {
        out.push(seen_at(alloc, target, set, first, index, shown)?)?;
    }
    Ok(())
}

/// Appends the facts of diagnostics at this place.
fn put_diags(
    alloc: Global,
    target: u32,
    set: u32,
    place: i64,
    diags: &[DiagRec],
    out: &mut Vec<Fact>,
) -> Result<(), AllocError>
    ensures { OnOk result (out.new.items ≡ out.old.items ++ diagnostic_facts target set place diags.now) }
{
    for diag in diags {
        out.push(Fact::Diag {
            target,
            set,
            place,
            diag: diag.copy(alloc)?,
        })?;
    }
    Ok(())
}

/// Appends the facts of the nonsurrogate diagnostics of a response.
fn put_diagnostics(
    alloc: Global,
    target: u32,
    set: u32,
    place: i64,
    records: &Option<Records>,
    out: &mut Vec<Fact>,
) -> Result<(), AllocError>
    ensures { OnOk result (out.new.items
        ≡ out.old.items ++ diagnostic_facts target set place (diagnostics_in records.now)) }
{
    match records {
        Some(Records::OneDiag(diag)) => {
            out.push(Fact::Diag {
                target,
                set,
                place,
                diag: DiagRec::Default(diag.duplicate(alloc)?),
            })?;
            Ok(())
        }
        Some(Records::ManyDiags(diags)) => put_diags(
            alloc,
            target,
            set,
            place,
            diags.as_slice(),
            out,
        ),
        _ => Ok(()),
    }
}

/// The facts of a response to Init. A rejected association is the failure of set 0.
fn init_facts(alloc: Global, target: u32, response: &InitResponse) -> Result<Vec<Fact>, AllocError>
    ensures { IfOk result (λ facts. facts.items ≡ init_facts target response.now) }
{
    let mut facts = Vec::new(alloc);
    if !response.result {
        facts.push(Fact::Failed { target, set: 0 })?;
    }
    Ok(facts)
}

/// The fact of a search: its count, or its failure.
fn count_or_failed(target: u32, set: u32, response: &SearchResponse) -> Fact
    ensures { result ≡ count_or_failed target set response.now.search_status response.now.result_count }
{
    if response.search_status {
        Fact::Count {
            target,
            set,
            count: response.result_count,
        }
    } else {
        Fact::Failed { target, set }
    }
}

/// The facts of a response to a search of this set.
fn search_facts(
    alloc: Global,
    target: u32,
    set: u32,
    response: &SearchResponse,
) -> Result<Vec<Fact>, AllocError>
    requires { pos (length (records_in response.now.records)) ≤ℤ response.now.result_count }
    ensures { IfOk result (λ facts. facts.items ≡ search_facts target set response.now) }
{
    let mut facts = Vec::new(alloc);
    facts.push(count_or_failed(target, set, response))?;
    put_seen(
        alloc,
        target,
        set,
        1,
        records_in(&response.records),
        &mut facts,
    )?;
    put_diagnostics(alloc, target, set, 0, &response.records, &mut facts)?;
    Ok(facts)
}

/// Appends the facts of records, each at the next position of the ranges.
fn put_seen_in(
    alloc: Global,
    target: u32,
    set: u32,
    ranges: &[Range],
    records: &[Record],
    out: &mut Vec<Fact>,
) -> Result<(), AllocError>
    requires { are_ranges ranges.now ≡ true }
    ensures { OnOk result (out.new.items ≡ out.old.items ++ seen_at target set (positions ranges.now) records.now) }
{
    let mut left = records;
    for range in ranges {
        let (within, after) = left.split_at(natural(range.n).min(left.len()));
        put_seen(alloc, target, set, range.start, within, out)?;
        left = after;
    }
    Ok(())
}

/// The facts of a response to a Present of these ranges.
fn present_facts(
    alloc: Global,
    target: u32,
    set: u32,
    ranges: &[Range],
    response: &PresentResponse,
) -> Result<Vec<Fact>, AllocError>
    requires { are_ranges ranges.now ≡ true }
    ensures { IfOk result (λ facts. facts.items ≡ present_facts target set (positions ranges.now) response.now) }
{
    let records = records_in(&response.records);
    let mut facts = Vec::new(alloc);
    put_seen_in(alloc, target, set, ranges, records, &mut facts)?;
    let first = first_of(ranges);
    put_diagnostics(alloc, target, set, first, &response.records, &mut facts)?;
    Ok(facts)
}

/// Returns the facts of an answer of the target with this number (Z39.50-2003, 3.2.1.1, 3.2.2.1 and 3.2.3.1).
///
/// A rejected Init gives the failure of set 0. A search gives its count, or its failure. Each record gives a fact at
/// its position: record j of a Present at the j-th position asked for. Each nonsurrogate diagnostic gives a fact: at
/// place 0 for a search, at the first position asked for a Present.
///
/// The answer is one that `take` or `peek` returned, or another whose reply fits its request and whose ranges can be
/// asked for. Returns `AllocError` if no memory is found.
pub fn facts_of(alloc: Global, target: u32, answer: &Answer) -> Result<Vec<Fact>, AllocError>
    requires { IsFitAnswer answer.now }
    ensures { IfOk result (λ facts. facts.items ≡ facts_of target answer.now) }
{
    let set = answer.asked.set;
    match (&answer.asked.what, &answer.reply) {
        (What::Init, Apdu::InitResponse(response)) => init_facts(alloc, target, response),
        (What::Search, Apdu::SearchResponse(response)) => {
            search_facts(alloc, target, set, response)
        }
        (What::Present { ranges }, Apdu::PresentResponse(response)) => {
            present_facts(alloc, target, set, ranges.as_slice(), response)
        }
        _ => Ok(Vec::new(alloc)),
    }
}
