//! Laws of the definitions. Each is the contract of a function that does nothing.
ghost use Rattle.std.specs.Prelude.{◌≡◌, None, Contains};
ghost use Rattle.zorigin.specs.declared.settings.Settings.{Settings};
ghost use Rattle.zorigin.specs.declared.answer.Answer.{Answer};
ghost use Rattle.zorigin.specs.Log.{Log, past};
ghost use Rattle.zorigin.specs.Standings.{Call, Standing};
ghost use Rattle.zorigin.specs.Calls.{refusal};
ghost use Rattle.zorigin.specs.Accepts.{IsAccepted};
ghost use Rattle.zorigin.specs.Laws.{IsOrderly, HasRequest};
ghost use Rattle.zorigin.specs.Sendable.{SendableLaws};

/// The accepted replies of a log are exactly those for which all of the following is true. The reply was taken after a
/// part of the log in which its request was admitted and not answered. The origin took replies then. The reply's
/// reference id names the request, and the reply fits the request.
pub fn accepted_replies()
    ensures accepted { (settings : Settings) (log : Log) (answer : Answer)
        → Contains (past settings log).accepted answer → IsAccepted settings log answer }
    ensures only { (settings : Settings) (log : Log) (answer : Answer)
        → IsAccepted settings log answer → Contains (past settings log).accepted answer }
{}

/// In each log no two operations have the same number, and no two searches the same set. An accepted reply is to an
/// admitted operation, and no two are to the same one. The ranges of each Present can be asked for. Close was called
/// only after the target accepted the association.
pub fn orderly_logs()
    ensures { (settings : Settings) (log : Log) → IsOrderly (past settings log) }
{}

/// A call that no row of the table refuses has a request, and its result is that request.
pub fn sent_requests()
    ensures { (s : Standing) (call : Call) → refusal s call ≡ None → HasRequest s call }
{}

/// An Init can be sent if the origin's name has at most 2,000,000 octets. If a search can be sent, and asks for no
/// syntax or one of at most 1,000 arcs, a Present of its set can be sent too. The Present has that syntax, the search's
/// element set, and at most 1,000 ranges that can be asked for; the numbers of its set and operation are any. A Close
/// can always be sent.
pub fn sendable_requests()
    ensures { SendableLaws }
{}
