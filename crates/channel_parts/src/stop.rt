//! The stop of a burst.
ghost use Rattle.std.specs.Prelude.{◌≡◌};
ghost use Rattle.rams_model.specs.Service.{is_before};

/// Whether a packet's number is before the stop, where one is set (RFC 6285, 7.4).
pub fn is_before_stop(stop: Option<u64>, n: u64) -> bool
    ensures { result ≡ is_before stop n }
{
    match stop {
        Some(stop) => n < stop,
        None => true,
    }
}
