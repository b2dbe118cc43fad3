//! Bytes in hexadecimal.
ghost use Rattle.std.specs.Prelude.{◌≡◌, ◌<◌, IfOk};
ghost use Rattle.std.specs.Result.{result_ok};
ghost use Rattle.pim_scenario.specs.Texts.{Reads, hex_of, digit_of};

use super::{Unread, Wrong};
use pim_types::Series;
use std::alloc::Global;

/// The bytes that a text of hexadecimal digits writes, two digits a byte, in either case.
pub(super) fn read_hex(alloc: Global, text: &str) -> Result<Series<u8>, Unread>
    ensures { Reads (λ bytes. bytes) result (hex_of text.now) }
{
    let mut bytes = Series::new(alloc);
    let mut rest = text.as_bytes();
    while rest.len() >= 2 {
        let (pair, tail) = rest.split_at(2);
        bytes.push(read_digit(pair[0])? * 16 + read_digit(pair[1])?)?;
        rest = tail;
    }
    if rest.is_empty() {
        Ok(bytes)
    } else {
        Err(Unread::Wrong)
    }
}

fn read_digit(digit: u8) -> Result<u8, Wrong>
    ensures value { result_ok result ≡ digit_of digit }
    ensures below { IfOk result (λ d. d < 16) }
{
    match digit {
        b'0'..=b'9' => Ok(digit - b'0'),
        b'a'..=b'f' => Ok(digit - b'a' + 10),
        b'A'..=b'F' => Ok(digit - b'A' + 10),
        _ => Err(Wrong),
    }
}
