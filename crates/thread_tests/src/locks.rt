//! A lock of three seats.
ghost use Rattle.std.specs.Prelude.{◌≡◌, ◌<◌, [], All, IfErr, IfOk};
ghost use Rattle.server_hub.specs.session_core.{StandsFor};

use channel_book::channel_lock::{Book, ChannelLock, CloseFault, Pass};
use channel_config::Config;
use server_hub::session_core::Core;
use std::alloc::Global;
use std::process::Abort;
use std::sync::Wait;
use std::test::Fail;
use test_fixtures::test_channel::CHANNEL;

/// A channel to which nothing came, with ticks of 10 ms.
fn new_core(alloc: Global) -> Result<Core, Fail>
    ensures { IfOk result (λ core. StandsFor core []) }
{
    let Ok(config) = Config::check(CHANNEL, 10) else {
        return Err(Fail::new("lawful settings"));
    };
    let Ok(core) = Core::new(alloc, &config) else {
        return Err(Fail::new("no memory"));
    };
    Ok(core)
}

/// A lock of three seats, and their passes.
fn three_seats(rt: &impl Abort, alloc: Global) -> Result<(ChannelLock, Pass, Pass, Pass), Fail>
    ensures made { IfOk result (λ r. (r.1.lock ≡ r.0.lock) × (r.2.lock ≡ r.0.lock) × (r.3.lock ≡ r.0.lock)) }
    ensures left { IfOk result (λ r. (0 < r.1.left) × (0 < r.2.left)) }
{
    let Ok((lock, mut passes)) = ChannelLock::new(alloc, new_core(alloc)?, 3) else {
        return Err(Fail::new("no memory"));
    };
    let third = passes.pop().expect(rt, "the third");
    let second = passes.pop().expect(rt, "the second");
    let first = passes.pop().expect(rt, "the first");
    Ok((lock, first, second, third))
}

/// The place of a tick. The call stands alone, as its contract is long.
fn place_of_tick(
    rt: &impl Wait,
    alloc: Global,
    lock: &ChannelLock,
    pass: &mut Pass,
) -> Result<u64, Fail>
    requires made { pass.old.lock ≡ lock.now.lock }
    requires left { 0 < pass.old.left }
    ensures { pass.new.lock ≡ lock.now.lock }
{
    let Ok((place, _)) = lock.tick(rt, alloc, pass) else {
        return Err(Fail::new("no memory"));
    };
    Ok(place)
}

/// A tick of each; then the first learns of the other's.
fn expect_ticks(
    rt: &(impl Wait + Abort),
    alloc: Global,
    lock: &ChannelLock,
    first: &mut Pass,
    second: &mut Pass,
) -> Result<(), Fail>
    requires made { (first.old.lock ≡ lock.now.lock) × (second.old.lock ≡ lock.now.lock) }
    requires left { (0 < first.old.left) × (0 < second.old.left) }
    ensures { (first.new.lock ≡ lock.now.lock) × (second.new.lock ≡ lock.now.lock) }
{
    let place = place_of_tick(rt, alloc, lock, first)?;
    assert!(rt; place == 0, "the place of its tick");
    let place = place_of_tick(rt, alloc, lock, second)?;
    assert!(rt; place == 1, "the place of the other");
    assert!(rt; first.seen() == 1, "its own call");
    lock.meet(first, second);
    assert!(rt; first.seen() == 2, "and what the other had seen");
    Ok(())
}

/// The passes of a lock, and one more.
fn one_more(
    alloc: Global,
    lock: &ChannelLock,
    passes: Vec<Pass>,
    pass: Pass,
) -> Result<Vec<Pass>, Fail>
    requires all { All (λ p. p.lock ≡ lock.now.lock) passes.items }
    requires made { pass.lock ≡ lock.now.lock }
    ensures { IfOk result (λ all. All (λ p. p.lock ≡ lock.now.lock) all.items) }
{
    let mut all = passes;
    all.push(pass)?;
    Ok(all)
}

/// The call that closes a lock. It stands alone, as its contract is long.
fn closed(
    lock: ChannelLock,
    passes: Vec<Pass>,
) -> Result<Book, (ChannelLock, Vec<Pass>, CloseFault)>
    requires { All (λ p. p.lock ≡ lock.lock) passes.items }
    ensures { IfErr result (λ r. (r.0 ≡ lock) × (r.1.items ≡ passes.items)) }
{
    lock.close(passes)
}

/// With two passes all comes back.
fn expect_open(
    rt: &impl Abort,
    lock: ChannelLock,
    passes: Vec<Pass>,
) -> Result<(ChannelLock, Vec<Pass>), Fail>
    requires { All (λ p. p.lock ≡ lock.lock) passes.items }
    ensures { IfOk result (λ r. (r.0 ≡ lock) × (r.1.items ≡ passes.items)) }
{
    let Err((lock, passes, fault)) = closed(lock, passes) else {
        panic!(rt; "closed with one pass missing");
    };
    let want = CloseFault::Passes { made: 3, given: 2 };
    assert!(rt; fault == want, "why it isn't closed");
    assert!(rt; passes.len() == 2, "all is given back");
    Ok((lock, passes))
}

/// With two passes all comes back; with three there is a book.
fn expect_closing(
    rt: &impl Abort,
    alloc: Global,
    lock: ChannelLock,
    first: Pass,
    second: Pass,
    third: Pass,
) -> Result<(), Fail>
    requires { (first.lock ≡ lock.lock) × (second.lock ≡ lock.lock) × (third.lock ≡ lock.lock) }
{
    let one = one_more(alloc, &lock, Vec::new(alloc), first)?;
    let two = one_more(alloc, &lock, one, second)?;
    let (lock, two) = expect_open(rt, lock, two)?;
    let all = one_more(alloc, &lock, two, third)?;
    let Ok(book) = closed(lock, all) else {
        panic!(rt; "not closed with all passes");
    };
    assert!(rt; book.entries().len() == 2, "the two ticks");
    Ok(())
}

#[test]
fn passes_meet_and_close(rt: HostRuntime) -> Result<(), Fail> {
    let alloc = rt.alloc();
    let (lock, mut first, mut second, third) = three_seats(&rt, alloc)?;
    expect_ticks(&rt, alloc, &lock, &mut first, &mut second)?;
    expect_closing(&rt, alloc, lock, first, second, third)
}
