//! What terms come to.
ghost use Rattle.std.specs.Prelude.{◌≡◌};
ghost use Rattle.xet_audit.specs.steps.Terms.{is_long, is_outside_state, is_unnamed, longer};

/// What a term of a file comes to.
#[derive(Clone, Copy)]
pub(crate) enum TermState {
    /// No xorb has the hash.
    Unnamed,
    /// One has, and the term isn't from below to inside it.
    Outside,
    /// The term names chunks, which have so many bytes together.
    Inside(u128),
}

impl TermState {
    /// Whether no xorb has the hash.
    pub(crate) fn is_unnamed(self) -> bool
        ensures { result ≡ is_unnamed self }
    {
        match self {
            TermState::Unnamed => true,
            TermState::Outside | TermState::Inside(_) => false,
        }
    }

    /// Whether the term isn't from below to inside its xorb.
    pub(crate) fn is_outside(self) -> bool
        ensures { result ≡ is_outside_state self }
    {
        match self {
            TermState::Outside => true,
            TermState::Unnamed | TermState::Inside(_) => false,
        }
    }

    /// How many bytes terms have with this one more, at most `u128::MAX`, or none where one names no chunks.
    pub(crate) fn added_to(self, length: Option<u128>) -> Option<u128>
        ensures { result ≡ longer length self }
    {
        match (length, self) {
            (Some(length), TermState::Inside(size)) => Some(length.saturating_add(size)),
            _ => None,
        }
    }
}

/// Whether terms that all name chunks have 2^64 bytes or more.
pub(crate) fn is_long(length: Option<u128>) -> bool
    ensures { result ≡ is_long length }
{
    match length {
        Some(length) => length > u128::from(u64::MAX),
        None => false,
    }
}
