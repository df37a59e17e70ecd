// Sessions of pools, step by step, worked out from Z39.50-2003, 3.1 to 3.4.
use crate::pool::go_as_told;
use std::test::Fail;

const SESSIONS: &str =
    r#"# What waits goes out in the order of the calls, each octet once; a reply comes in two pieces, and three others in one.
new 1
0 state - = Fresh
0 out - = -
0 init - = ok
0 state - = Initialising
0 out - = b421820400000000830205e0840301c006850310000086031000009f6f057a6d657461
0 out - = -
0 take - = Nothing
0 feed b51c820400000000830205e0840301c006850310000086031000008c01
0 take - = Nothing
0 feed ff
0 take - = Opened
0 state - = Ready { v3: true, concurrent: true, named: true }
0 size - =  nothing
0 search 1 1 = ok
0 out - = b6418204000000018d01008e01018f01009001ff910131b2049f690164b524a12206072a8648ce130301a017bf6614bf2c0a30089f7801019f7901049f2d0464756e65
0 feed b7128204000000019701049801009901009601ff
0 take - = Answered
0 take - = Nothing
0 size - =  one 4
0 row 1 =  nothing
0 present 2 1 1 3 = ok
0 present 3 1 2 3 = ok
0 close - = ok
0 state - = Closing
0 out - = b8108204000000029f1f01319e01019d0103b8108204000000039f1f01319e01029d0103bf30059f81530100
0 feed b9508204000000029801039901049b0100bc3f3013a111a10f280d06072a8648ce13050a810272313013a111a10f280d06072a8648ce13050a810272323013a111a10f280d06072a8648ce13050a81027233b9508204000000039801039901009b0100bc3f3013a111a10f280d06072a8648ce13050a810272323013a111a10f280d06072a8648ce13050a810272333013a111a10f280d06072a8648ce13050a81027234bf30059f81530100
0 take - = Answered
0 row 2 =  one 3013a111a10f280d06072a8648ce13050a81027232
0 row 4 =  nothing
0 take - = Answered
0 row 4 =  one 3013a111a10f280d06072a8648ce13050a81027234
0 take - = Closed
0 state - = Closed
list a = target "a" set 1 count 4%0a1 "a" 1 rec 1.2.840.10003.5.10 - "r1"%0a2 "a" 1 rec 1.2.840.10003.5.10 - "r2"%0a3 "a" 1 rec 1.2.840.10003.5.10 - "r3"%0a4 "a" 1 rec 1.2.840.10003.5.10 - "r4"%0a
# Requests for the positions 1 to 3 and 2 to 4, answered in the other order.
new 1
0 init - = ok
0 feed b51c820400000000830205e0840301c006850310000086031000008c01ff
0 take - = Opened
0 search 1 1 = ok
0 feed b7128204000000019701049801009901009601ff
0 take - = Answered
0 present 2 1 1 3 = ok
0 present 3 1 2 3 = ok
0 feed b9508204000000039801039901009b0100bc3f3013a111a10f280d06072a8648ce13050a810272323013a111a10f280d06072a8648ce13050a810272333013a111a10f280d06072a8648ce13050a81027234b9508204000000029801039901049b0100bc3f3013a111a10f280d06072a8648ce13050a810272313013a111a10f280d06072a8648ce13050a810272323013a111a10f280d06072a8648ce13050a81027233
0 take - = Answered
0 take - = Answered
list a = target "a" set 1 count 4%0a1 "a" 1 rec 1.2.840.10003.5.10 - "r1"%0a2 "a" 1 rec 1.2.840.10003.5.10 - "r2"%0a3 "a" 1 rec 1.2.840.10003.5.10 - "r3"%0a4 "a" 1 rec 1.2.840.10003.5.10 - "r4"%0a
# The second has another record at its first position.
new 1
0 init - = ok
0 feed b51c820400000000830205e0840301c006850310000086031000008c01ff
0 take - = Opened
0 search 1 1 = ok
0 feed b7128204000000019701049801009901009601ff
0 take - = Answered
0 present 2 1 1 3 = ok
0 present 3 1 2 3 = ok
0 feed b9508204000000029801039901049b0100bc3f3013a111a10f280d06072a8648ce13050a810272313013a111a10f280d06072a8648ce13050a810272323013a111a10f280d06072a8648ce13050a81027233b9508204000000039801039901009b0100bc3f3013a111a10f280d06072a8648ce13050a810278323013a111a10f280d06072a8648ce13050a810272333013a111a10f280d06072a8648ce13050a81027234
0 take - = Answered
0 row 2 =  one 3013a111a10f280d06072a8648ce13050a81027232
0 take - = Answered
0 row 2 =  conflict 3013a111a10f280d06072a8648ce13050a81027232 3013a111a10f280d06072a8648ce13050a81027832
list a = target "a" set 1 count 4%0a1 "a" 1 rec 1.2.840.10003.5.10 - "r1"%0a2 "a" 1 conflict 2%0a  rec 1.2.840.10003.5.10 - "r2"%0a  rec 1.2.840.10003.5.10 - "x2"%0a3 "a" 1 rec 1.2.840.10003.5.10 - "r3"%0a4 "a" 1 rec 1.2.840.10003.5.10 - "r4"%0a
# The same, answered in the other order.
new 1
0 init - = ok
0 feed b51c820400000000830205e0840301c006850310000086031000008c01ff
0 take - = Opened
0 search 1 1 = ok
0 feed b7128204000000019701049801009901009601ff
0 take - = Answered
0 present 2 1 1 3 = ok
0 present 3 1 2 3 = ok
0 feed b9508204000000039801039901009b0100bc3f3013a111a10f280d06072a8648ce13050a810278323013a111a10f280d06072a8648ce13050a810272333013a111a10f280d06072a8648ce13050a81027234b9508204000000029801039901049b0100bc3f3013a111a10f280d06072a8648ce13050a810272313013a111a10f280d06072a8648ce13050a810272323013a111a10f280d06072a8648ce13050a81027233
0 take - = Answered
0 row 2 =  one 3013a111a10f280d06072a8648ce13050a81027832
0 take - = Answered
0 row 2 =  conflict 3013a111a10f280d06072a8648ce13050a81027232 3013a111a10f280d06072a8648ce13050a81027832
list a = target "a" set 1 count 4%0a1 "a" 1 rec 1.2.840.10003.5.10 - "r1"%0a2 "a" 1 conflict 2%0a  rec 1.2.840.10003.5.10 - "r2"%0a  rec 1.2.840.10003.5.10 - "x2"%0a3 "a" 1 rec 1.2.840.10003.5.10 - "r3"%0a4 "a" 1 rec 1.2.840.10003.5.10 - "r4"%0a
# Two requests at once, and replies in the other order.
new 1
0 init - = ok
0 feed b51c820400000000830205e0840301c006850310000086031000008c01ff
0 take - = Opened
0 search 1 1 = ok
0 feed b7128204000000019701029801009901009601ff
0 take - = Answered
0 present 2 1 1 1 = ok
0 present 3 1 2 1 = ok
0 present 4 1 3 1 = OutOfRange
0 present 2 1 1 1 = OpUsed
0 feed b9268204000000039801019901009b0100bc153013a111a10f280d06072a8648ce13050a81026869b9268204000000029801019901029b0100bc153013a111a10f280d06072a8648ce13050a81026869
0 take - = Answered
0 row 1 =  nothing
0 row 2 =  one 3013a111a10f280d06072a8648ce13050a81026869
0 take - = Answered
0 row 1 =  one 3013a111a10f280d06072a8648ce13050a81026869
# Without concurrency.
new 1
0 init - = ok
0 feed b51b820400000000830205e0840206c0850310000086031000008c01ff
0 take - = Opened
0 search 1 1 = ok
0 feed b7128204000000019701029801009901009601ff
0 take - = Answered
0 present 2 1 1 1 = ok
0 present 3 1 2 1 = Busy
# A reply that no operation waits for, in one piece with one that is accepted: what that said stands.
new 1
0 init - = ok
0 feed b51c820400000000830205e0840301c006850310000086031000008c01ff
0 take - = Opened
0 search 1 1 = ok
0 feed b7128204000000019701019801009901009601ff
0 take - = Answered
0 present 2 1 1 1 = ok
0 feed b9268204000000029801019901029b0100bc153013a111a10f280d06072a8648ce13050a81026869b9268204000000099801019901029b0100bc153013a111a10f280d06072a8648ce13050a81026869
0 take - = Answered
0 take - = Refused(UnknownReference)
0 state - = Failed(Refused(UnknownReference))
0 take - = Stopped
list a = target "a" set 1 count 1%0a1 "a" 1 rec 1.2.840.10003.5.10 - "hi"%0a
# The same reply twice.
new 1
0 init - = ok
0 feed b51c820400000000830205e0840301c006850310000086031000008c01ff
0 take - = Opened
0 search 1 1 = ok
0 feed b7128204000000019701019801009901009601ff
0 take - = Answered
0 present 2 1 1 1 = ok
0 feed b9268204000000029801019901029b0100bc153013a111a10f280d06072a8648ce13050a81026869b9268204000000029801019901029b0100bc153013a111a10f280d06072a8648ce13050a81026869
0 take - = Answered
0 take - = Refused(UnknownReference)
0 take - = Stopped
list a = target "a" set 1 count 1%0a1 "a" 1 rec 1.2.840.10003.5.10 - "hi"%0a
# A fault of the octets behind a message; what waits to go out still goes, and nothing more is called or fed.
new 1
0 init - = ok
0 feed b51c820400000000830205e0840301c006850310000086031000008c01ff
0 take - = Opened
0 search 1 1 = ok
0 feed b7128204000000019701019801009901009601ff
0 take - = Answered
0 present 2 1 1 1 = ok
0 feed b9268204000000029801019901029b0100bc153013a111a10f280d06072a8648ce13050a810268690480
0 take - = Answered
0 take - = Frame { kind: IndefinitePrimitive, at: 0 }
0 state - = Failed(Frame { kind: IndefinitePrimitive, at: 0 })
0 feed bf30059f81530100
0 take - = Stopped
0 close - = WrongState
0 out - = b421820400000000830205e0840301c006850310000086031000009f6f057a6d657461b6418204000000018d01008e01018f01009001ff910131b2049f690164b524a12206072a8648ce130301a017bf6614bf2c0a30089f7801019f7901049f2d0464756e65b8108204000000029f1f01319e01019d0101
0 out - = -
list a = target "a" set 1 count 1%0a1 "a" 1 rec 1.2.840.10003.5.10 - "hi"%0a
# A message that is no APDU, and one that is none of its kind.
new 2
0 init - = ok
0 feed b51c820400000000830205e0840301c006850310000086031000008c01ff
0 take - = Opened
0 search 1 1 = ok
0 feed b7128204000000019701019801009901009601ff
0 take - = Answered
0 present 2 1 1 1 = ok
0 feed b9268204000000029801019901029b0100bc153013a111a10f280d06072a8648ce13050a810268693000
0 take - = Answered
0 take - = Decode(NotApdu)
0 state - = Failed(Decode(NotApdu))
1 init - = ok
1 feed bf30089f81530100820105
1 take - = Decode(Malformed { kind: Close, at: 1 })
1 state - = Failed(Decode(Malformed { kind: Close, at: 1 }))
list a = target "a" set 1 count 1%0a1 "a" 1 rec 1.2.840.10003.5.10 - "hi"%0a
# Two connections: one fails, and the other goes on. Each has facts of its own.
new 2
0 init - = ok
0 feed b51c820400000000830205e0840301c006850310000086031000008c01ff
0 take - = Opened
0 search 1 1 = ok
0 feed b7128204000000019701019801009901009601ff
0 take - = Answered
0 present 2 1 1 1 = ok
1 init - = ok
1 feed b51c820400000000830205e0840301c006850310000086031000008c01ff
1 take - = Opened
1 search 1 1 = ok
1 feed b7128204000000019701019801009901009601ff
1 take - = Answered
1 present 2 1 1 1 = ok
1 feed b9268204000000029801019901029b0100bc153013a111a10f280d06072a8648ce13050a8102686900
0 feed b9268204000000029801019901029b0100bc1530
1 take - = Answered
0 take - = Nothing
1 feed 00
1 take - = Frame { kind: StrayEnd, at: 0 }
0 feed 13a111a10f280d06072a8648ce13050a81026869
0 take - = Answered
1 take - = Stopped
0 take - = Nothing
0 state - = Ready { v3: true, concurrent: true, named: true }
list a b = target "a" set 1 count 1%0atarget "b" set 1 count 1%0a1 "a" 1 rec 1.2.840.10003.5.10 - "hi"%0a1 "b" 1 rec 1.2.840.10003.5.10 - "hi"%0a
# A target that closes, and sends again what it sent.
new 1
0 init - = ok
0 feed b51c820400000000830205e0840301c006850310000086031000008c01ff
0 take - = Opened
0 search 1 1 = ok
0 feed b7128204000000019701019801009901009601ff
0 take - = Answered
0 present 2 1 1 1 = ok
0 feed b9268204000000029801019901029b0100bc153013a111a10f280d06072a8648ce13050a81026869bf30059f81530100b9268204000000029801019901029b0100bc153013a111a10f280d06072a8648ce13050a81026869
0 take - = Answered
0 take - = Closed
0 state - = Closed
0 take - = Stopped
0 feed b9268204000000029801019901029b0100bc153013a111a10f280d06072a8648ce13050a81026869
0 take - = Stopped
0 present 3 1 1 1 = WrongState
list a = target "a" set 1 count 1%0a1 "a" 1 rec 1.2.840.10003.5.10 - "hi"%0a
# A target that rejects the association.
new 1
0 init - = ok
0 feed b51c820400000000830205e0840301c006850310000086031000008c0100b51c820400000000830205e0840301c006850310000086031000008c01ff
0 take - = Rejected
0 state - = Closed
0 take - = Stopped
0 search 1 1 = WrongState
list a = target "a" set 0 failed%0a
# A reply before any call.
new 1
0 feed b51c820400000000830205e0840301c006850310000086031000008c01ff
0 take - = Refused(WrongState)
0 state - = Failed(Refused(WrongState))
0 init - = WrongState
# A connection that its host stops.
new 1
0 init - = ok
0 feed b51c820400000000830205e0840301c006850310000086031000008c01ff
0 take - = Opened
0 search 1 1 = ok
0 feed b7128204000000019701019801009901009601ff
0 take - = Answered
0 present 2 1 1 1 = ok
0 feed b9268204000000029801019901029b0100bc153013a111a10f280d06072a8648ce13050a81026869
0 stop -
0 state - = Failed(Read)
0 take - = Stopped
0 present 3 1 1 1 = WrongState
list a = target "a" set 1 count 1%0a
"#;

#[test]
fn pools_answer_as_told(rt: HostRuntime) -> Result<(), Fail> {
    go_as_told(&rt, SESSIONS)
}
