//! The machine of a candidate BSR (RFC 5059, section 3.1.1): which BSRs it yields to, and when it is one itself.
ghost use Rattle.std.specs.Prelude.{◌≡◌, ◌^◌, ◌≤◌, min};
ghost use Rattle.pim_candidate.specs.Election.{address_delay, begun, best_address, best_priority, does, elected_heard, expired, hastened, heard, is_at_least, is_elected, less_heard, milli_log, originated, other_heard, override_delay, pending, priority_delay, weighed, whole_log, yielded};

use pim_ip::Addr;

/// A BSR, by what its weight is made of.
#[derive(Clone, Copy)]
pub struct Bsr {
    pub address: Addr,
    /// The higher number is preferred.
    pub priority: u8,
}

/// The states of a candidate BSR.
#[derive(Clone, Copy)]
pub enum Role {
    /// Another one is the BSR.
    Candidate,
    /// None is: it may become the BSR.
    Pending,
    /// It is the BSR.
    Elected,
}

/// What is to be done.
#[derive(Clone, Copy)]
pub enum Action {
    Nothing,
    /// What the message says is taken, and the message is sent on.
    Take,
    /// The message is sent on, and what it says isn't taken.
    PassOn,
    /// A Bootstrap is originated.
    Originate,
}

/// A candidate BSR. Times are in ms.
#[derive(Clone, Copy)]
pub struct Election {
    pub own: Bsr,
    pub role: Role,
    /// The BSR that it yields to, or yielded to last.
    pub stored: Option<Bsr>,
    /// When the Bootstrap Timer expires.
    pub end: u64,
    /// Before this no Bootstrap may be originated.
    pub quiet: u64,
}

const BS_PERIOD: u64 = 60_000;

pub(crate) const BS_TIMEOUT: u64 = 130_000;

const BS_MIN_INTERVAL: u64 = 10_000;

impl Bsr {
    /// Whether it has the weight of another one, or more.
    #[tactic(auto, unfolding(crate::specs::Election::is_at_least))]
    pub fn is_at_least(self, other: Bsr) -> bool
        ensures { result ≡ is_at_least self other }
    {
        self.priority > other.priority
            || (self.priority == other.priority && self.address.bits >= other.address.bits)
    }
}

/// The machine after an event, and what is to be done.
#[derive(Clone, Copy)]
pub struct Outcome {
    pub left: Election,
    pub action: Action,
}

/// The whole part of the logarithm to base 2 of a number, at most 32.
fn whole_log(number: u64) -> u32
    ensures value { result ≡ whole_log 32 number }
    ensures small { result ≤ 32 }
{
    let mut power = 32;
    while power > 0 && number < 1u64 << power {
        power -= 1;
    }
    power
}

/// 1000 log_2 of a number up to 2^32.
#[tactic(auto, unfolding(crate::specs::Election::milli_log))]
fn milli_log(number: u64) -> u64
    requires { number ≤ 2 ^ 32 }
    ensures value { result ≡ milli_log number }
    ensures small { result ≤ 2 ^ 43 }
{
    let whole = whole_log(number);
    let power = 1u64 << whole;
    1000 * u64::from(whole) + 1000 * number.saturating_sub(power) / power
}

/// The higher of a candidate's own priority and that of the BSR that was elected.
fn best_priority(own: Bsr, stored: Option<Bsr>) -> u8
    ensures value { result ≡ best_priority own stored }
    ensures own { own.priority ≤ result }
{
    match stored {
        Some(bsr) => bsr.priority.max(own.priority),
        None => own.priority,
    }
}

/// The higher of a candidate's own address and that of the BSR that was elected.
fn best_address(own: Bsr, stored: Option<Bsr>) -> u32
    ensures value { result ≡ best_address own stored }
    ensures own { own.address.bits ≤ result }
{
    match stored {
        Some(bsr) => bsr.address.bits.max(own.address.bits),
        None => own.address.bits,
    }
}

fn priority_delay(own: Bsr, stored: Option<Bsr>) -> u64
    ensures value { result ≡ priority_delay own stored }
    ensures small { result ≤ 2 ^ 44 }
{
    2 * milli_log(1 + u64::from(best_priority(own, stored)) - u64::from(own.priority))
}

fn address_delay(own: Bsr, stored: Option<Bsr>) -> u64
    ensures value { result ≡ address_delay own stored }
    ensures small { result ≤ 2 ^ 43 }
{
    let address = u64::from(own.address.bits);
    if best_priority(own, stored) == own.priority {
        return milli_log(1 + u64::from(best_address(own, stored)) - address) / 16;
    }
    2000 - 1000 * address / 0x8000_0000
}

/// BS_Rand_Override, in ms: less for a candidate of more weight.
#[tactic(auto, unfolding(crate::specs::Election::override_delay))]
pub fn override_delay(own: Bsr, stored: Option<Bsr>) -> u64
    ensures value { result ≡ override_delay own stored }
    ensures small { result ≤ 2 ^ 45 }
{
    5000 + priority_delay(own, stored) + address_delay(own, stored)
}

/// A candidate that may become the BSR.
fn pending(own: Bsr, stored: Option<Bsr>, quiet: u64, now: u64) -> Election
    requires { now ≤ 2 ^ 62 }
    ensures { result ≡ pending own stored quiet now }
{
    Election {
        own,
        role: Role::Pending,
        stored,
        end: (now + override_delay(own, stored)).max(quiet),
        quiet,
    }
}

impl Election {
    /// A candidate BSR that begins at a timestamp.
    pub fn new(own: Bsr, now: u64) -> Election
        requires { now ≤ 2 ^ 62 }
        ensures { result ≡ begun own now }
    {
        pending(own, None, now, now)
    }

    /// It hears another BSR.
    fn yielded(self, bsr: Bsr, now: u64) -> Election
        requires { now ≤ 2 ^ 62 }
        ensures { result ≡ yielded self bsr now }
    {
        Election {
            own: self.own,
            role: Role::Candidate,
            stored: Some(bsr),
            end: now + BS_TIMEOUT,
            quiet: self.quiet,
        }
    }

    /// It originates a Bootstrap.
    fn originated(self, now: u64) -> Election
        requires { now ≤ 2 ^ 62 }
        ensures { result ≡ originated self now }
    {
        Election {
            own: self.own,
            role: Role::Elected,
            stored: None,
            end: now + BS_PERIOD,
            quiet: now + BS_MIN_INTERVAL,
        }
    }

    /// Whether it is the BSR.
    pub fn is_elected(self) -> bool
        ensures { result ≡ is_elected self.role }
    {
        matches!(self.role, Role::Elected)
    }

    fn does(self, action: Action) -> Outcome
        ensures { result ≡ does action self }
    {
        Outcome { left: self, action }
    }

    /// The timer is no later than a timestamp.
    fn ends_by(self, moment: u64) -> Election
        ensures { result ≡ record self { end = min self.end moment } }
    {
        Election {
            own: self.own,
            role: self.role,
            stored: self.stored,
            end: self.end.min(moment),
            quiet: self.quiet,
        }
    }

    /// A message of a BSR with less weight.
    fn hear_less(self, now: u64) -> Outcome
        requires { now ≤ 2 ^ 62 }
        ensures { result ≡ less_heard self.role self now }
    {
        match self.role {
            Role::Candidate => self.does(Action::Nothing),
            Role::Pending => self.does(Action::PassOn),
            Role::Elected => {
                if self.quiet <= now {
                    self.originated(now).does(Action::Originate)
                } else {
                    self.ends_by(self.quiet).does(Action::Nothing)
                }
            }
        }
    }

    /// A message of the BSR that it yields to.
    fn hear_elected(self, bsr: Bsr, now: u64) -> Outcome
        requires { now ≤ 2 ^ 62 }
        ensures { result ≡ elected_heard self bsr now }
    {
        if bsr.is_at_least(self.own) {
            return self.yielded(bsr, now).does(Action::Take);
        }
        pending(self.own, self.stored, self.quiet, now).does(Action::PassOn)
    }

    /// A message of a BSR, compared with another one.
    fn hear_beside(self, current: Bsr, bsr: Bsr, now: u64) -> Outcome
        requires { now ≤ 2 ^ 62 }
        ensures { result ≡ other_heard self current bsr now }
    {
        if bsr.is_at_least(current) {
            return self.yielded(bsr, now).does(Action::Take);
        }
        self.hear_less(now)
    }

    /// A Bootstrap that passes the checks of section 3.1.3, by its BSR, at a timestamp in ms. One of its own changes nothing.
    #[tactic(auto, unfolding(crate::specs::Election::heard))]
    pub fn hear(self, bsr: Bsr, now: u64) -> Outcome
        requires { now ≤ 2 ^ 62 }
        ensures { result ≡ heard self bsr now }
    {
        if bsr.address.bits == self.own.address.bits {
            return self.does(Action::Nothing);
        }
        match (self.role, self.stored) {
            (Role::Candidate, Some(current)) => {
                if bsr.address.bits == current.address.bits {
                    self.hear_elected(bsr, now)
                } else {
                    self.hear_beside(current, bsr, now)
                }
            }
            _ => self.hear_beside(self.own, bsr, now),
        }
    }

    /// Its timer expires, at the timer's end.
    #[tactic(auto, unfolding(crate::specs::Election::expired))]
    pub fn expire(self) -> Outcome
        requires { self.end ≤ 2 ^ 62 }
        ensures { result ≡ expired self }
    {
        match self.role {
            Role::Candidate => {
                pending(self.own, self.stored, self.quiet, self.end).does(Action::Nothing)
            }
            Role::Pending | Role::Elected => self.originated(self.end).does(Action::Originate),
        }
    }

    /// The RPs that it says are others: an elected BSR says them as soon as it may.
    #[tactic(auto, unfolding(crate::specs::Election::hastened))]
    pub fn hasten(self, now: u64) -> Election
        ensures { result ≡ hastened self now }
    {
        match self.role {
            Role::Candidate | Role::Pending => self,
            Role::Elected => self.ends_by(now.max(self.quiet)),
        }
    }
}
