//! Where the events of a trace go.
ghost use Rattle.std.specs.Prelude.{◌≡◌, ◌≤◌, length, filter};
ghost use Rattle.pool.specs.pool_loop.{is_for_all, reaches};

/// Where an event goes.
#[derive(Clone, Copy, PartialEq, Eq)]
pub enum Route {
    /// To the channel of this number, where there is one.
    To(u16),
    /// To every channel, as a tick does.
    Everyone,
}

/// Whether an event goes to the channel of this number.
pub(crate) fn reaches(route: Route, id: u16) -> bool
    ensures { result ≡ reaches route id }
{
    match route {
        Route::To(other) => id == other,
        Route::Everyone => true,
    }
}

fn is_for_all(route: Route) -> bool
    ensures { result ≡ is_for_all route }
{
    match route {
        Route::To(_) => false,
        Route::Everyone => true,
    }
}

/// How many events go to every channel.
pub(crate) fn ticks_among(routes: &[Route]) -> u32
    requires { length routes.now ≤ 200000 }
    ensures { result ≡ length (filter is_for_all routes.now) }
{
    routes.iter().filter(|route| is_for_all(**route)).count() as u32
}
