// Which calls an origin admits, and which association stands after Init (Z39.50-2003, 3.2.1 and 3.4).
use crate::sessions::pooled::go_through_pool;
use crate::sessions::{answer, go_as_told, origin_of};
use bytes::Bytes;
use std::alloc::Global;
use std::process::Abort;
use std::test::Fail;
use zber_rows::rows::tells;
use zber_rows::unread::Unread;

const SESSIONS: &str = "\
# Requests, octet for octet; replies in another order than their requests.
new
state - = Fresh
init - = b421820400000000830205e0840301c006850310000086031000009f6f057a6d657461
state - = Initialising
take b51c820400000000830205e0840301c006850310000086031000008c01ff = Opened
state - = Ready { v3: true, concurrent: true, named: true }
search 1 1 = b6418204000000018d01008e01018f01009001ff910131b2049f690164b524a12206072a8648ce130301a017bf6614bf2c0a30089f7801019f7901049f2d0464756e65
take b7128204000000019701029801009901009601ff = Answered
present 2 1 1 1 = b8108204000000029f1f01319e01019d0101
present 3 1 2 1 = sent
take b9268204000000039801019901009b0100bc153013a111a10f280d06072a8648ce13050a81026869 = Answered
take b9268204000000029801019901029b0100bc153013a111a10f280d06072a8648ce13050a81026869 = Answered
present 4 1 3 1 = OutOfRange
present 2 1 1 1 = OpUsed
close - = bf30059f81530100
state - = Closing
take bf30059f81530100 = Closed
state - = Closed
# A reply that no operation waits for.
new
init - = sent
take b51c820400000000830205e0840301c006850310000086031000008c01ff = Opened
search 1 1 = sent
take b7128204000000019701029801009901009601ff = Answered
present 2 1 1 1 = sent
peek b9268204000000029801019901029b0100bc153013a111a10f280d06072a8648ce13050a81026869 = Answered
state - = Ready { v3: true, concurrent: true, named: true }
take b9268204000000029801019901029b0100bc153013a111a10f280d06072a8648ce13050a81026869 = Answered
peek b9268204000000099801019901029b0100bc153013a111a10f280d06072a8648ce13050a81026869 = UnknownReference
state - = Ready { v3: true, concurrent: true, named: true }
take b9268204000000099801019901029b0100bc153013a111a10f280d06072a8648ce13050a81026869 = UnknownReference
state - = Failed(UnknownReference)
peek b9268204000000029801019901029b0100bc153013a111a10f280d06072a8648ce13050a81026869 = WrongState
take b9268204000000029801019901029b0100bc153013a111a10f280d06072a8648ce13050a81026869 = WrongState
state - = Failed(UnknownReference)
# A reply taken twice.
new
init - = sent
take b51c820400000000830205e0840301c006850310000086031000008c01ff = Opened
search 1 1 = sent
take b7128204000000019701029801009901009601ff = Answered
present 2 1 1 1 = sent
take b9268204000000029801019901009b0100bc153013a111a10f280d06072a8648ce13050a81026869 = Answered
take b9268204000000029801019901009b0100bc153013a111a10f280d06072a8648ce13050a81026869 = UnknownReference
# A syntax and an element set, which the requests for the set's records have too.
new
init - = sent
take b51c820400000000830205e0840301c006850310000086031000008c01ff = Opened
full 1 1 = b6578204000000018d01008e01018f01009001ff910131b2049f690164bf6403800146bf65038001469f68072a8648ce13050ab524a12206072a8648ce130301a017bf6614bf2c0a30089f7801019f7901049f2d0464756e65
take b7128204000000019701029801009901009601ff = Answered
present 2 1 1 1 = b81f8204000000029f1f01319e01019d0101b3038001469f68072a8648ce13050a
# Neither concurrency nor names: one operation at a time, one set.
new
init - = sent
take b51b820400000000830205e0840206c0850310000086031000008c01ff = Opened
state - = Ready { v3: true, concurrent: false, named: false }
search 1 1 = b6478204000000018d01008e01018f01009001ff910764656661756c74b2049f690164b524a12206072a8648ce130301a017bf6614bf2c0a30089f7801019f7901049f2d0464756e65
present 2 1 1 1 = SetNotReady
search 2 2 = Busy
take b7128204000000019701029801009901009601ff = Answered
present 2 1 1 1 = b8168204000000029f1f0764656661756c749e01019d0101
present 3 1 2 1 = Busy
search 3 2 = Busy
take b9209801019901009b0100bc153013a111a10f280d06072a8648ce13050a81026869 = Answered
search 3 2 = sent
present 4 1 1 1 = SetReplaced
take b7128204000000039701019801009901009601ff = Answered
present 4 1 1 1 = SetReplaced
present 4 2 1 1 = sent
# No option.
new
init - = sent
take b51a820400000000830205e0840100850310000086031000008c01ff = Opened
search 1 1 = NotOffered
present 2 1 1 1 = NotOffered
close - = sent
# Search alone, Present alone.
new
init - = sent
take b51b820400000000830205e084020780850310000086031000008c01ff = Opened
search 1 1 = sent
present 2 1 1 1 = NotOffered
# Present alone.
new
init - = sent
take b51b820400000000830205e084020640850310000086031000008c01ff = Opened
search 1 1 = NotOffered
present 2 1 1 1 = SetUnknown
# A rejected association.
new
init - = sent
take b51c820400000000830205e0840301c006850310000086031000008c0100 = Rejected
state - = Closed
search 1 1 = WrongState
take b51c820400000000830205e0840301c006850310000086031000008c01ff = WrongState
state - = Closed
# Version 2.
new
init - = sent
take b51c820400000000830206c0840301c006850310000086031000008c01ff = Opened
state - = Ready { v3: false, concurrent: true, named: true }
# An answer to Init as a server sends it.
new
init - = sent
take b51583020000840300c00685017f86047fffffff8c0101 = Opened
state - = Ready { v3: false, concurrent: true, named: true }
# The same with 8 option bits.
new
init - = sent
take b514830100840200c0850310000086031000008c0101 = Opened
state - = Ready { v3: false, concurrent: false, named: false }
search 1 1 = sent
# Calls in their states.
new
search 1 1 = WrongState
present 1 1 1 1 = WrongState
close - = WrongState
state - = Fresh
init - = sent
init - = WrongState
search 1 1 = WrongState
take bf30059f81530100 = Closed
state - = Closed
close - = WrongState
# Numbers, sets and ranges.
new
init - = sent
take b51c820400000000830205e0840301c006850310000086031000008c01ff = Opened
search 0 1 = OpUsed
search 1 0 = OutOfRange
bounds 1 -1 1 0 = OutOfRange
bounds 1 0 0 0 = OutOfRange
bounds 1 1 1 0 = OutOfRange
bounds 1 0 1 -1 = OutOfRange
bounds 1 0 -1 0 = OutOfRange
bounds 1 3 4 2 = sent
search 1 2 = OpUsed
search 2 1 = SetUsed
present 2 2 1 1 = SetUnknown
present 2 1 1 1 = SetNotReady
take b7128204000000019701029801009901009601ff = Answered
present 2 1 0 1 = OutOfRange
present 2 1 1 0 = OutOfRange
present 2 1 3 1 = OutOfRange
present 2 1 1 3 = OutOfRange
present 2 1 2 1 = sent
search 3 2 = sent
take b725820400000003970100980100990100960100bf81020f06072a8648ce1304010202010d1a00 = Answered
present 4 2 1 1 = SetNotReady
present 4 1 1 2 = sent
# The last position.
new
init - = sent
take b51c820400000000830205e0840301c006850310000086031000008c01ff = Opened
search 1 1 = sent
take b716820400000001970501000000009801009901019601ff = Answered
present 2 1 2147483648 1 = OutOfRange
present 2 1 2147483647 2 = OutOfRange
present 2 1 9223372036854775807 9223372036854775807 = OutOfRange
present 2 1 2147483647 1 = sent
present 3 1 1 2147483647 = sent
# Concurrency without names.
new
init - = sent
take b51c820400000000830205e0840301c004850310000086031000008c01ff = Opened
search 1 1 = sent
search 2 2 = Busy
take b7128204000000019701029801009901009601ff = Answered
search 2 2 = sent
present 3 1 1 1 = SetReplaced
# Names without concurrency.
new
init - = sent
take b51c820400000000830205e0840301c002850310000086031000008c01ff = Opened
search 1 1 = sent
search 2 2 = Busy
take b70c9701029801009901009601ff = Answered
search 2 2 = sent
present 3 1 1 1 = Busy
take b7128204000000029701029801009901009601ff = Answered
present 3 1 1 1 = sent
";

// An origin that has made no call takes no reply, and stays Fresh.
const FRESH: &str = "\
new
take b51c820400000000830205e0840301c006850310000086031000008c01ff = WrongState
take bf30059f81530100 = WrongState
state - = Fresh
init - = sent
";

#[test]
fn calls_are_answered_as_told(rt: HostRuntime) -> Result<(), Fail> {
    go_as_told(&rt, SESSIONS)?;
    go_as_told(&rt, FRESH)
}

#[test]
fn calls_of_a_pool_are_answered_as_told(rt: HostRuntime) -> Result<(), Fail> {
    go_through_pool(&rt, SESSIONS)
}

// Whether Init is refused for a name of so many octets.
fn is_unsendable(alloc: Global, len: usize) -> Result<bool, Unread> {
    let name = Bytes::from_vec(vec![in alloc; b'a'; len]?)?;
    let Ok(mut origin) = origin_of(alloc, name) else {
        return Err(Unread);
    };
    Ok(tells(answer(alloc, &mut origin, "init -"), "Unsendable"))
}

#[test]
fn a_long_name_is_not_sent(rt: HostRuntime) -> Result<(), Fail> {
    assert!(rt; matches!(is_unsendable(rt.alloc(), 2_097_152), Ok(true)));
    assert!(rt; matches!(is_unsendable(rt.alloc(), 2_097_100), Ok(false)));
    Ok(())
}
