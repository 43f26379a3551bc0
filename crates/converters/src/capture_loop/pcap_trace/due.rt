//! When ticks are due.
ghost use Rattle.std.specs.Prelude.{◌≡◌, ◌<◌, ◌≤◌, ◌^◌, None, Some};
ghost use Rattle.converters.specs.capture_loop.pcap_trace.{widened, ticks_between, Elapsed};

use std::marker::Model;

/// The ticks of a clock that starts at the first moment that it is told: the first is due one tick
/// after that moment, and each other one tick after the one before.
#[derive(Drop)]
pub struct Due {
    // In ms.
    tick: u64,
    span: Option<Span>,
}

// The first moment that was told, and the greatest.
#[derive(Clone, Copy)]
struct Span {
    first: u64,
    top: u64,
}

impl Model for Due {
    ghost use Rattle.std.specs.Prelude.{◌≤◌, ◌<◌, ◌^◌, IfSome, option_map};
    ghost use Rattle.converters.specs.capture_loop.pcap_trace.{Elapsed};
    ghost use Rattle.converters.specs.capture_loop.pcap_trace.Seen.{shown_span};

    ghost Value = { Elapsed };

    ghost view = { λ d. record { tick = d.tick; seen = option_map shown_span d.span } };

    ghost invariant = { λ d. (1 ≤ d.tick) × IfSome d.span (λ s. (s.first ≤ s.top) × (s.top < 2 ^ 43)) };
}

impl Due {
    /// A clock that wasn't told a moment yet.
    pub fn new(tick_ms: u32) -> Due
        requires least { 1 ≤ tick_ms }
        requires most { tick_ms ≤ 1000 }
        ensures { result ≡ record { tick = tick_ms; seen = None } }
    {
        Due {
            tick: u64::from(tick_ms),
            span: None,
        }
    }

    /// How many more ticks are due by this moment, in ms. A moment that isn't beyond the greatest one
    /// before brings none.
    pub fn ticks_before(&mut self, ms: u64) -> u64
        requires { ms < 2 ^ 43 }
        ensures ticks { result ≡ ticks_between self.old ms }
        ensures seen { self.new ≡ record self.old { seen = Some (widened ms self.old.seen) } }
    {
        let Some(span) = self.span else {
            self.span = Some(Span { first: ms, top: ms });
            return 0;
        };
        let top = span.top.max(ms);
        self.span = Some(Span { top, ..span });
        (top - span.first) / self.tick - (span.top - span.first) / self.tick
    }
}
