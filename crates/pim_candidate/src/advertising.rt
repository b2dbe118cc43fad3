//! When a candidate RP advertises itself to the BSR (RFC 5059, section 3.2).
ghost use Rattle.std.specs.Prelude.{◌≡◌, ◌+◌, ◌^◌, ◌≤◌};
ghost use Rattle.pim_candidate.specs.Advertising.{backoff, same_bsr, sent, silent, told_soon, with_bsr};

use pim_ip::Addr;

/// When a candidate RP advertises itself next. Times are in ms.
#[derive(Clone, Copy)]
pub struct Advertising {
    /// The elected BSR; without one nothing is sent.
    pub bsr: Option<Addr>,
    /// How many more times a new BSR is told soon.
    pub left: u8,
    /// When the next advertisement leaves.
    pub end: u64,
}

/// The holdtime of an advertisement, in seconds.
pub const ADVERTISED_HOLDTIME: u16 = 150;

const PERIOD: u64 = 60_000;

const FIRST_TIMES: u8 = 3;

/// A random delay, of the draw of a call.
fn backoff(draw: u64) -> u64
    ensures value { result ≡ backoff draw }
    ensures small { result ≤ 3000 }
{
    draw % 3001
}

/// Whether two BSRs are the same.
fn same_bsr(first: Option<Addr>, second: Option<Addr>) -> bool
    ensures { result ≡ same_bsr first second }
{
    match (first, second) {
        (None, None) => true,
        (Some(first), Some(second)) => first.bits == second.bits,
        (None, Some(_)) => false,
        (Some(_), None) => false,
    }
}

impl Advertising {
    /// No BSR is known.
    pub fn new() -> Advertising
        ensures { result ≡ silent }
    {
        Advertising {
            bsr: None,
            left: 0,
            end: 0,
        }
    }

    /// Another BSR is elected, or none.
    fn told_soon(bsr: Option<Addr>, draw: u64, now: u64) -> Advertising
        requires { now ≤ 2 ^ 62 }
        ensures { result ≡ told_soon bsr draw now }
    {
        match bsr {
            Some(bsr) => Advertising {
                bsr: Some(bsr),
                left: FIRST_TIMES,
                end: now + backoff(draw),
            },
            None => Advertising::new(),
        }
    }

    /// The elected BSR at a timestamp in ms; one that is another than before is told three times, each after a random delay
    /// of up to 3 s.
    #[tactic(auto, unfolding(crate::specs::Advertising::with_bsr))]
    pub fn with_bsr(self, bsr: Option<Addr>, draw: u64, now: u64) -> Advertising
        requires { now ≤ 2 ^ 62 }
        ensures { result ≡ with_bsr self bsr draw now }
    {
        if same_bsr(self.bsr, bsr) {
            return self;
        }
        Advertising::told_soon(bsr, draw, now)
    }

    /// After an advertisement, with so many more to come soon.
    fn sent_with(self, left: u8, delay: u64) -> Advertising
        requires end { self.end ≤ 2 ^ 62 }
        requires delay { delay ≤ 60000 }
        ensures { result ≡ record self { left = left; end = self.end + delay } }
    {
        Advertising {
            bsr: self.bsr,
            left,
            end: self.end + delay,
        }
    }

    /// An advertisement is sent, at the timer's end.
    #[tactic(auto, unfolding(crate::specs::Advertising::sent))]
    pub fn sent(self, draw: u64) -> Advertising
        requires { self.end ≤ 2 ^ 62 }
        ensures { result ≡ sent self draw }
    {
        let left = self.left.saturating_sub(1);
        if left == 0 {
            self.sent_with(left, PERIOD)
        } else {
            self.sent_with(left, backoff(draw))
        }
    }
}
