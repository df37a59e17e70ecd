// Which ranges of positions an origin asks for in one request, and which replies fit them (Z39.50-2003, 3.2.3.1).
use crate::sessions::go_as_told;
use crate::sessions::pooled::go_through_pool;
use std::test::Fail;

const SESSIONS: &str = "\
# Set 1 has 7 records. Requests, octet for octet.
new
init - = sent
take b51c820400000000830205e0840301c006850310000086031000008c01ff = Opened
search 1 1 = sent
take b7128204000000019701079801009901009601ff = Answered
ranges 2 1 1+2 5+1 = b81c8204000000029f1f01319e01019d0102bf8154083006810105820101
ranges 3 1 1+1 2+1 7+1 = b8248204000000039f1f01319e01019d0101bf81541030068101028201013006810107820101
ranges 4 1 2+1 = b8108204000000049f1f01319e01029d0101
# No range; one that goes back, overlaps, is empty, begins at 0 or passes the count, wherever it stands.
ranges 5 1 - = OutOfRange
ranges 5 1 5+1 1+2 = OutOfRange
ranges 5 1 1+3 3+2 = OutOfRange
ranges 5 1 1+3 3+1 5+1 = OutOfRange
ranges 5 1 1+1 3+0 5+1 = OutOfRange
ranges 5 1 0+1 3+1 = OutOfRange
ranges 5 1 1+1 3+-1 = OutOfRange
ranges 5 1 1+2 7+2 = OutOfRange
ranges 5 1 1+2 8+1 = OutOfRange
ranges 5 1 8+1 1+1 = OutOfRange
ranges 5 1 1+1 9223372036854775807+9223372036854775807 = OutOfRange
ranges 2 1 5+1 1+2 = OpUsed
ranges 5 2 5+1 1+2 = SetUnknown
ranges 5 1 1+3 4+4 = sent
# The last position.
new
init - = sent
take b51c820400000000830205e0840301c006850310000086031000008c01ff = Opened
search 1 1 = sent
take b716820400000001970501000000009801009901019601ff = Answered
ranges 2 1 1+1 2147483647+1 = sent
ranges 3 1 1+2147483646 2147483647+1 = sent
ranges 4 1 1+1 2147483647+2 = OutOfRange
ranges 4 1 1+1 2147483648+1 = OutOfRange
# Without version 3: one range alone.
new
init - = sent
take b51c820400000000830206c0840301c006850310000086031000008c01ff = Opened
search 1 1 = sent
take b7128204000000019701079801009901009601ff = Answered
ranges 2 1 1+2 5+1 = NotOffered
ranges 2 1 5+1 1+2 = NotOffered
ranges 2 1 - = OutOfRange
ranges 2 1 5+2 = b8108204000000029f1f01319e01059d0102
# As many records as positions in all ranges, and no more.
new
init - = sent
take b51c820400000000830205e0840301c006850310000086031000008c01ff = Opened
search 1 1 = sent
take b7128204000000019701079801009901009601ff = Answered
ranges 2 1 1+1 5+1 = sent
peek b9508204000000029801039901009b0100bc3f3013a111a10f280d06072a8648ce13050a810268693013a111a10f280d06072a8648ce13050a810268693013a111a10f280d06072a8648ce13050a81026869 = BadShape
peek b93b8204000000029801029901009b0100bc2a3013a111a10f280d06072a8648ce13050a810268693013a111a10f280d06072a8648ce13050a81026869 = Answered
peek b9268204000000029801019901009b0100bc153013a111a10f280d06072a8648ce13050a81026869 = Answered
";

#[test]
fn ranges_are_asked_for_as_told(rt: HostRuntime) -> Result<(), Fail> {
    go_as_told(&rt, SESSIONS)?;
    go_through_pool(&rt, SESSIONS)
}
