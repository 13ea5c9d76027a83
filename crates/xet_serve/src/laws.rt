//! Laws of what the contract of a session says.
ghost use Rattle.xet_serve.specs.Laws.{CalmSessionsBegin, CalmSessionsEnd, CalmSessionsReply};

/// Where no count of faults and none of expired answers rose, and none stands at its last value, a session's sink took
/// the replies to all that the source had left, exactly; with a line that is too long those up to and with `OVER`; and
/// with any error a prefix of them.
pub fn calm_sessions_reply()
    ensures reply { CalmSessionsReply }
    ensures end { CalmSessionsEnd }
    ensures begin { CalmSessionsBegin }
{}
