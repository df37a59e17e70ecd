// Messages and faults of a stream of octets, worked out from X.690, 8.1.
use crate::elements::scripts::{answers, answers_as, put_next};
use std::alloc::{AllocError, Global};
use std::process::Abort;
use std::test::Fail;
use zber::Framer;
use zber_rows::rows::{LIMIT, each_row, octets, pair, split_row, tells};
use zber_rows::unread::Unread;

// A PresentResponse with one record, "hi" in the syntax 1.2.840.10003.5.10.
const PRESENT_RESPONSE: &str =
    "b9268204000000029801019901029b0100bc153013a111a10f280d06072a8648ce13050a81026869";

// What octets show, with the fault decided by the very last of them.
pub(crate) const FAULTS: &str = "\
1f80 TagForm at 0
1f1e TagForm at 0
1f00 TagForm at 0
bf80 TagForm at 0
30805f1e TagForm at 2
1f9080808000 TagTooLarge at 0
1f9080808080 TagTooLarge at 0
ffffffffffff TagTooLarge at 0
00 StrayEnd at 0
20 StrayEnd at 0
300200 StrayEnd at 2
300220 StrayEnd at 2
30800005 StrayEnd at 2
308020 StrayEnd at 2
3080300200 StrayEnd at 4
04ff LengthForm at 0
0489 LengthForm at 0
30ff LengthForm at 0
30030489 LengthForm at 2
0480 IndefinitePrimitive at 0
30800480 IndefinitePrimitive at 2
30020401 Overrun at 2
300104 Overrun at 2
30020482 Overrun at 2
30023080 Overrun at 4
3003308000 Overrun at 4
30043003 Overrun at 2
300405000401 Overrun at 4
04831ffffc TooLong at 0
04887fffffffffffffff TooLong at 0
308005000483200000 TooLong at 4
";

// A fault is answered for good, whatever comes.
fn stays(alloc: Global, digits: &str, due: &str) -> bool {
    answers_as(
        alloc,
        format!(in alloc; "{digits} next {PRESENT_RESPONSE} next finish"),
        format!(in alloc; "{due};{due};{due};"),
    )
}

fn feed_each(framer: &mut Framer, octets: &[u8], trace: &mut String) -> Result<(), AllocError> {
    for octet in octets {
        if framer.feed(&[*octet]).is_err() || put_next(framer, trace).is_err() {
            return Err(AllocError);
        }
    }
    Ok(())
}

// What octets show that are fed one by one.
fn by_octet(alloc: Global, octets: &[u8]) -> Result<String, AllocError> {
    let mut trace = String::new(alloc);
    let mut framer = Framer::new(alloc, LIMIT);
    if feed_each(&mut framer, octets, &mut trace).is_err() {
        return Err(AllocError);
    }
    Ok(trace)
}

// It comes with the last octet and not before.
fn comes_last(alloc: Global, digits: &str, due: &str) -> bool {
    let Ok(octets) = octets(alloc, digits) else {
        return false;
    };
    let Ok(before) = "nothing;".repeat(alloc, octets.len().saturating_sub(1)) else {
        return false;
    };
    let Ok(due) = format!(in alloc; "{before}{due};") else {
        return false;
    };
    tells(by_octet(alloc, octets.as_slice()), due.as_str())
}

fn is_fault(alloc: Global, row: &str) -> Result<bool, Unread> {
    let (digits, due) = pair(row);
    Ok(stays(alloc, digits, due) && comes_last(alloc, digits, due))
}

#[test]
fn faults_come_with_the_octets_that_decide_them(rt: HostRuntime) -> Result<(), Fail> {
    each_row(rt.alloc(), FAULTS, is_fault)
}

// Scripts and answers: what is left before and in a message, and with its end.
const LEFT: &str = "\
b9268204000000029801019901029b0100bc1530 finish next finish 13a111a10f280d06072a8648ce13050a81026869 next finish: false;nothing;Truncated at 20;elements 5;true;
b9268204000000029801019901029b0100bc1530 - finish next - finish: false;nothing;Truncated at 20;
";

fn is_left(alloc: Global, row: &str) -> Result<bool, Unread> {
    let (script, due) = split_row(row, ": ");
    Ok(tells(answers(alloc, LIMIT, script), due))
}

#[test]
fn what_is_left_is_told(rt: HostRuntime) -> Result<(), Fail> {
    each_row(rt.alloc(), LEFT, is_left)
}

// One octet more of an indefinite length passes the limit where the octets reach it.
#[test]
fn a_message_ends_at_the_limit(rt: HostRuntime) -> Result<(), Fail> {
    let trace = answers(rt.alloc(), 8, "30800403010203 next 05 next");
    assert!(rt; tells(trace, "nothing;TooLong at 7;"));
    Ok(())
}
