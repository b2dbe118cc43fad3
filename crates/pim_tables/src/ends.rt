//! Rows with timers, and the kinds of these.
ghost use Rattle.std.specs.Prelude.{◌≡◌, ◌≢◌, ℕ, Option, Some};
ghost use Rattle.pim_tables.specs.Ends.{Kinds};

use pim_types::TimerKind;

/// A row with at most two timers, each of a kind of its own. An end is when a timer expires, as a timestamp in ms;
/// `None` never expires.
pub trait Ends: Copy {
    /// The kind of the first timer, and that of the second if there is one.
    ghost kinds: { Kinds };

    /// When the first and the second timer of a row expire.
    ghost ends: { Self → Option ℕ × Option ℕ };

    /// The kind of the first timer, and that of the second if there is one.
    fn kinds() -> (TimerKind, Option<TimerKind>)
        ensures { result ≡ kinds };

    /// When the first and the second timer of the row expire, in ms. If there is no second kind, the second isn't used.
    fn ends(self) -> (Option<u64>, Option<u64>)
        ensures { result ≡ ends self };

    /// The two kinds differ.
    ghost apart: { kinds.1 ≢ Some kinds.0 };
}
