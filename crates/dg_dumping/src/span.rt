//! A span of instants.
ghost use Rattle.std.specs.Prelude.{◌≡◌};
ghost use Rattle.dg_dumping.specs.SpanText.{is_before, is_within};

/// The instants from one on, and before another.
#[derive(Clone, Copy)]
pub struct Span {
    /// The first instant.
    pub from: u64,
    /// The instant behind the last one; `None` where there is no last.
    pub until: Option<u64>,
}

impl Span {
    /// Whether the instant is in the span.
    pub fn has(self, time: u64) -> bool
        ensures { result ≡ is_within self time }
    {
        self.from <= time && is_before(self.until, time)
    }
}

// Whether the instant is before the end of a span.
fn is_before(until: Option<u64>, time: u64) -> bool
    ensures { result ≡ is_before until time }
{
    match until {
        Some(until) => time < until,
        None => true,
    }
}
