// How long a reply to a search waits: document 01, 'Engine and ledger', with the delay of document 02's change 2. The contract cites specs/Delay.antt.
ghost use Rattle.std.specs.Prelude.{◌≡◌};
ghost use Rattle.engine.specs.Delay.{window, delay};

// The milliseconds over which replies are spread: those of `mx` seconds, five seconds at most.
fn window_of(mx: u8) -> u32
    ensures { result ≡ window mx }
{
    (1000 * u32::from(mx)).min(5000)
}

// The delay of a reply, inside its searcher's window; it may be 0. Without a window there is nothing to spread; no accepted search has `mx` 0.
pub(crate) fn delay_of(seed: u32, mx: u8) -> u64
    ensures { result ≡ delay seed mx }
{
    u64::from(seed.checked_rem(window_of(mx)).unwrap_or(seed))
}
