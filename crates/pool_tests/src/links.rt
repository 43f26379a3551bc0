//! A ticker and takers, by hand and on threads.
ghost use Rattle.std.specs.Prelude.{◌≡◌, ◌+◌, ◌^◌, ◌<◌, ◌≤◌, [], All, IfErr, IfOk};
ghost use Rattle.pool.specs.link_pool.{claimed};

use pool::ledger_text::append_ledger;
use pool::link_pool::{Ledger, NoMemory, Pool, PoolFault, Taker, Ticker};
use std::alloc::Global;
use std::process::Abort;
use std::test::Fail;
use std::thread;
use std::thread::Threads;

/// A link of two takers, to which nothing was granted.
fn two_takers(rt: &impl Abort, alloc: Global) -> Result<(Pool, Ticker, Taker, Taker), Fail>
    ensures made { IfOk result (λ r. (r.1.pool ≡ r.0.pool) × (r.2.pool ≡ r.0.pool) × (r.3.pool ≡ r.0.pool)) }
    ensures none { IfOk result (λ r. (r.1.total ≡ 0) × (r.2.claims ≡ []) × (r.3.claims ≡ [])) }
{
    let Ok((pool, ticker, mut takers)) = Pool::new(alloc, 2) else {
        return Err(Fail::new("no memory"));
    };
    let second = takers.pop().expect(rt, "the second");
    let first = takers.pop().expect(rt, "the first");
    Ok((pool, ticker, first, second))
}

/// The first byte of a claim. The call stands alone, as its contract is long.
fn claim(pool: &Pool, taker: &mut Taker, bytes: u64) -> Result<u64, NoMemory>
    requires made { taker.old.pool ≡ pool.now.pool }
    requires bytes { (0 < bytes) × (claimed taker.old.claims + bytes ≤ 2 ^ 48) }
    ensures pool { taker.new.pool ≡ taker.old.pool }
    ensures claimed { IfOk result (λ _. claimed taker.new.claims ≡ claimed taker.old.claims + bytes) }
{
    pool.claim(taker, bytes)
}

/// The takers of a link, and one more.
fn one_more(
    alloc: Global,
    pool: &Pool,
    takers: Vec<Taker>,
    taker: Taker,
) -> Result<Vec<Taker>, Fail>
    requires all { All (λ t. t.pool ≡ pool.now.pool) takers.items }
    requires made { taker.pool ≡ pool.now.pool }
    ensures { IfOk result (λ all. All (λ t. t.pool ≡ pool.now.pool) all.items) }
{
    let mut all = takers;
    all.push(taker)?;
    Ok(all)
}

/// The call that closes a pool. It stands alone, as its contract is long.
fn closed(
    alloc: Global,
    pool: Pool,
    ticker: Ticker,
    takers: Vec<Taker>,
) -> Result<Ledger, (Pool, Ticker, Vec<Taker>, PoolFault)>
    requires ticker { ticker.pool ≡ pool.pool }
    requires takers { All (λ t. t.pool ≡ pool.pool) takers.items }
    ensures few { IfOk result (λ ledger. claimed ledger.claims.items < 2 ^ 64) }
    ensures back { IfErr result (λ r. (r.0 ≡ pool) × (r.1 ≡ ticker) × (r.2.items ≡ takers.items)) }
{
    pool.close(alloc, ticker, takers)
}

/// A claim of so many bytes has this first byte.
fn expect_claim(
    rt: &impl Abort,
    pool: &Pool,
    taker: &mut Taker,
    bytes: u64,
    want: u64,
) -> Result<(), Fail>
    requires made { taker.old.pool ≡ pool.now.pool }
    requires bytes { (0 < bytes) × (claimed taker.old.claims + bytes ≤ 2 ^ 48) }
    ensures pool { taker.new.pool ≡ taker.old.pool }
    ensures claimed { IfOk result (λ _. claimed taker.new.claims ≡ claimed taker.old.claims + bytes) }
{
    let Ok(from) = claim(pool, taker, bytes) else {
        return Err(Fail::new("no memory"));
    };
    assert!(rt; from == want, "the first byte {want}");
    Ok(())
}

/// Two takers claim in turn, of what two ticks grant.
fn expect_claims(
    rt: &impl Abort,
    pool: &Pool,
    ticker: &mut Ticker,
    first: &mut Taker,
    last: &mut Taker,
) -> Result<(), Fail>
    requires made { (ticker.old.pool ≡ pool.now.pool) × (first.old.pool ≡ pool.now.pool) × (last.old.pool ≡ pool.now.pool) }
    requires none { (ticker.old.total ≡ 0) × (first.old.claims ≡ []) × (last.old.claims ≡ []) }
    ensures { (ticker.new.pool ≡ pool.now.pool) × (first.new.pool ≡ pool.now.pool) × (last.new.pool ≡ pool.now.pool) }
{
    assert!(rt; (first.number(), last.number()) == (0, 1), "their numbers");
    pool.grant(ticker, 1500);
    pool.grant(ticker, 1500);
    assert!(rt; ticker.total() == 3000, "what was granted");
    expect_claim(rt, pool, last, 1500, 0)?;
    expect_claim(rt, pool, first, 1500, 1500)?;
    expect_claim(rt, pool, last, 1, 3000)?;
    assert!(rt; last.claims().len() == 2, "its own claims");
    Ok(())
}

/// With one taker missing all comes back.
fn expect_open(
    rt: &impl Abort,
    alloc: Global,
    pool: Pool,
    ticker: Ticker,
    takers: Vec<Taker>,
) -> Result<(Pool, Ticker, Vec<Taker>), Fail>
    requires ticker { ticker.pool ≡ pool.pool }
    requires takers { All (λ t. t.pool ≡ pool.pool) takers.items }
    ensures { IfOk result (λ r. (r.0 ≡ pool) × (r.1 ≡ ticker) × (r.2.items ≡ takers.items)) }
{
    let Err((pool, ticker, takers, fault)) = closed(alloc, pool, ticker, takers) else {
        panic!(rt; "closed with one taker missing");
    };
    let want = PoolFault::Passes { made: 2, given: 1 };
    assert!(rt; fault == want, "why it isn't closed");
    Ok((pool, ticker, takers))
}

/// With all takers there is a ledger.
fn expect_ledger(
    rt: &impl Abort,
    alloc: Global,
    pool: Pool,
    ticker: Ticker,
    takers: Vec<Taker>,
) -> Result<Ledger, Fail>
    requires ticker { ticker.pool ≡ pool.pool }
    requires takers { All (λ t. t.pool ≡ pool.pool) takers.items }
    ensures { IfOk result (λ ledger. claimed ledger.claims.items < 2 ^ 64) }
{
    let Ok(ledger) = closed(alloc, pool, ticker, takers) else {
        panic!(rt; "not closed with all takers");
    };
    Ok(ledger)
}

/// Two takers claim in turn; the pool is closed once both are given back.
#[test]
fn a_pool_is_closed_with_all_its_takers(rt: HostRuntime) -> Result<(), Fail> {
    let alloc = rt.alloc();
    let (pool, mut ticker, mut first, mut last) = two_takers(&rt, alloc)?;
    expect_claims(&rt, &pool, &mut ticker, &mut first, &mut last)?;
    let one = one_more(alloc, &pool, Vec::new(alloc), first)?;
    let (pool, ticker, one) = expect_open(&rt, alloc, pool, ticker, one)?;
    let both = one_more(alloc, &pool, one, last)?;
    let ledger = expect_ledger(&rt, alloc, pool, ticker, both)?;
    let mut text = Vec::new(alloc);
    let Ok(()) = append_ledger(&mut text, &[7, 8], &ledger) else {
        return Err(Fail::new("no memory"));
    };
    let want =
        b"claim 8 0 1500 paid\nclaim 7 1500 1500 paid\nclaim 8 3000 1 late\npool 3001 3000\n";
    assert!(&rt; text.as_slice() == &want[..], "by rising first byte");
    Ok(())
}

/// Claims so many bytes a thousand times.
fn claim_often(pool: &Pool, mut taker: Taker, bytes: u64) -> Result<Taker, NoMemory>
    requires made { taker.pool ≡ pool.now.pool }
    requires none { taker.claims ≡ [] }
    requires bytes { (0 < bytes) × (bytes ≤ 1500) }
    ensures { IfOk result (λ t. t.pool ≡ pool.now.pool) }
{
    for _time in 0..1000u32 {
        claim(pool, &mut taker, bytes)?;
    }
    Ok(taker)
}

/// Two takers claim often, each on a thread.
fn claim_beside<R: Threads>(
    rt: &R,
    pool: &Pool,
    first: Taker,
    second: Taker,
) -> Result<(Taker, Taker), NoMemory>
    requires made { (first.pool ≡ pool.now.pool) × (second.pool ≡ pool.now.pool) }
    requires none { (first.claims ≡ []) × (second.claims ≡ []) }
    ensures { IfOk result (λ r. (r.0.pool ≡ pool.now.pool) × (r.1.pool ≡ pool.now.pool)) }
{
    let (first, second) = thread::join(
        rt,
        || -> Result<Taker, NoMemory>
            requires { (first.pool ≡ pool.now.pool) × (first.claims ≡ []) }
            ensures { IfOk result (λ t. t.pool ≡ pool.entry.now.pool) }
        { claim_often(pool, first, 700) },
        || -> Result<Taker, NoMemory>
            requires { (second.pool ≡ pool.now.pool) × (second.claims ≡ []) }
            ensures { IfOk result (λ t. t.pool ≡ pool.entry.now.pool) }
        { claim_often(pool, second, 1300) },
    );
    Ok((first?, second?))
}

/// The claims of two threads fill the link: each begins where the one before it ends.
#[test]
fn claims_of_two_threads_fill_the_link(rt: HostRuntime) -> Result<(), Fail> {
    let alloc = rt.alloc();
    let (pool, ticker, first, second) = two_takers(&rt, alloc)?;
    let Ok((first, second)) = claim_beside(&rt, &pool, first, second) else {
        return Err(Fail::new("no memory"));
    };
    let one = one_more(alloc, &pool, Vec::new(alloc), first)?;
    let both = one_more(alloc, &pool, one, second)?;
    let ledger = expect_ledger(&rt, alloc, pool, ticker, both)?;
    let mut end: u64 = 0;
    for claim in &ledger.claims {
        assert!(&rt; claim.from == end, "without gap or overlap");
        end = end.saturating_add(claim.bytes);
    }
    assert!(&rt; ledger.claims.len() == 2000, "all claims");
    assert!(&rt; end == 2_000_000, "all bytes");
    Ok(())
}
