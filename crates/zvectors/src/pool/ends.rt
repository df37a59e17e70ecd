// What a take answers once the input of a connection has ended.
use crate::pool::go_as_told;
use std::test::Fail;

const SESSIONS: &str = r#"# Within a message.
new 1
0 init - = ok
0 feed b51c820400000000830205e0840301c006850310000086031000008c01ff
0 take - = Opened
0 search 1 1 = ok
0 feed b7128204000000019701019801009901009601ff
0 take - = Answered
0 present 2 1 1 1 = ok
0 feed b9268204000000029801019901029b0100bc1530
0 end -
0 state - = Ready { v3: true, concurrent: true, named: true }
0 take - = Frame { kind: Truncated, at: 20 }
0 state - = Failed(Frame { kind: Truncated, at: 20 })
0 take - = Stopped
# Behind whole messages and within another; what comes later is not read.
new 1
0 init - = ok
0 feed b51c820400000000830205e0840301c006850310000086031000008c01ff
0 take - = Opened
0 search 1 1 = ok
0 feed b7128204000000019701019801009901009601ff
0 take - = Answered
0 present 2 1 1 1 = ok
0 feed b9268204000000029801019901029b0100bc153013a111a10f280d06072a8648ce13050a81026869b9268204000000029801019901029b0100bc1530
0 end -
0 feed 13a111a10f280d06072a8648ce13050a81026869
0 take - = Answered
0 take - = Frame { kind: Truncated, at: 20 }
0 take - = Stopped
# Before Init.
new 1
0 end -
0 state - = Fresh
0 take - = Ended
0 state - = Failed(Ended)
0 take - = Stopped
0 init - = WrongState
# Before any call, and then Init.
new 1
0 end -
0 init - = ok
0 feed b51c820400000000830205e0840301c006850310000086031000008c01ff
0 take - = Ended
0 state - = Failed(Ended)
# Behind Init.
new 1
0 init - = ok
0 end -
0 state - = Initialising
0 take - = Ended
0 state - = Failed(Ended)
0 take - = Stopped
0 out - = b421820400000000830205e0840301c006850310000086031000009f6f057a6d657461
# Where the association stands.
new 1
0 init - = ok
0 feed b51c820400000000830205e0840301c006850310000086031000008c01ff
0 take - = Opened
0 end -
0 search 1 1 = ok
0 take - = Ended
0 state - = Failed(Ended)
# Behind a reply that was not taken yet.
new 1
0 init - = ok
0 feed b51c820400000000830205e0840301c006850310000086031000008c01ff
0 take - = Opened
0 search 1 1 = ok
0 feed b7128204000000019701019801009901009601ff
0 take - = Answered
0 present 2 1 1 1 = ok
0 feed b9268204000000029801019901029b0100bc153013a111a10f280d06072a8648ce13050a81026869
0 end -
0 take - = Answered
0 take - = Ended
0 state - = Failed(Ended)
list a = target "a" set 1 count 1%0a1 "a" 1 rec 1.2.840.10003.5.10 - "hi"%0a
# Behind Close, with a reply that was not taken yet.
new 1
0 init - = ok
0 feed b51c820400000000830205e0840301c006850310000086031000008c01ff
0 take - = Opened
0 search 1 1 = ok
0 feed b7128204000000019701019801009901009601ff
0 take - = Answered
0 present 2 1 1 1 = ok
0 close - = ok
0 feed b9268204000000029801019901029b0100bc153013a111a10f280d06072a8648ce13050a81026869
0 end -
0 state - = Closing
0 take - = Answered
0 take - = Ended
0 state - = Closed
0 take - = Stopped
list a = target "a" set 1 count 1%0a1 "a" 1 rec 1.2.840.10003.5.10 - "hi"%0a
# Behind Close, within a message.
new 1
0 init - = ok
0 feed b51c820400000000830205e0840301c006850310000086031000008c01ff
0 take - = Opened
0 search 1 1 = ok
0 feed b7128204000000019701019801009901009601ff
0 take - = Answered
0 present 2 1 1 1 = ok
0 close - = ok
0 feed b9268204000000029801019901029b0100bc1530
0 end -
0 take - = Frame { kind: Truncated, at: 20 }
0 state - = Failed(Frame { kind: Truncated, at: 20 })
# Where it is Closed.
new 1
0 init - = ok
0 feed b51c820400000000830205e0840301c006850310000086031000008c01ff
0 take - = Opened
0 feed bf30059f81530100
0 take - = Closed
0 end -
0 take - = Stopped
0 state - = Closed
# Where it has failed.
new 1
0 init - = ok
0 feed b51c820400000000830205e0840301c006850310000086031000008c01ff
0 take - = Opened
0 feed 3000
0 take - = Decode(NotApdu)
0 end -
0 take - = Stopped
0 state - = Failed(Decode(NotApdu))
# Of one of two connections.
new 2
0 init - = ok
1 init - = ok
0 end -
0 take - = Ended
1 take - = Nothing
1 feed b51c820400000000830205e0840301c006850310000086031000008c01ff
1 take - = Opened
"#;

#[test]
fn ended_input_is_told(rt: HostRuntime) -> Result<(), Fail> {
    go_as_told(&rt, SESSIONS)
}
