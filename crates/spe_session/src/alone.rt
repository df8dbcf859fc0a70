//! The law of transactions of one client.

ghost use Rattle.std.specs.Prelude.{[]};
ghost use Rattle.spe_session.specs.Alone.{BeginsAlone, IsIdle};

/// Nobody is at work in a store that is new; and where nobody is, a transaction that begins is alone, and has
/// done nothing yet.
///
/// It does nothing: its contract is a law, for a caller that calls it where it needs it.
pub fn alone_law()
    ensures none { IsIdle [] }
    ensures begins { BeginsAlone }
{}
