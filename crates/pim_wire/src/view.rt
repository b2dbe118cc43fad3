//! A PIM message of any type, read: the tests of its header and its type.
ghost use Rattle.std.specs.Prelude.{◌≡◌, ◌≤◌, true, length};
ghost use Rattle.pim_wire.specs.Encoded.{pim_type_of};
ghost use Rattle.pim_wire.specs.Messages.{is_register, is_checksum_right, body_reading, pim_reading};

use crate::assert::{Assert, read_assert};
use crate::hello::{Hello, read_hello};
use crate::join_prune::{JoinPruneView, read_join_prune};
use crate::register::{
    REGISTER_HEADER, RegisterStop, RegisterView, read_register, read_register_stop,
};
use pim_ip::{Refusal, sum16};

/// A PIM message that was read.
#[derive(Drop)]
pub enum PimView<'a> {
    Hello(Hello),
    Register(RegisterView<'a>),
    RegisterStop(RegisterStop),
    JoinPrune(JoinPruneView<'a>),
    Assert(Assert),
    /// Bootstrap, Graft and all types from 6 on.
    Other,
}

const VERSION: u8 = 2;

/// The length of a message's header.
const HEADER_LENGTH: usize = 4;

const HELLO: u8 = 0;

const REGISTER: u8 = 1;

const REGISTER_STOP: u8 = 2;

const JOIN_PRUNE: u8 = 3;

const ASSERT: u8 = 5;

fn is_register(bytes: &[u8]) -> bool
    requires { 4 ≤ length bytes.now }
    ensures { result ≡ is_register bytes.now }
{
    bytes[0] & 0x0F == REGISTER
}

/// Whether the checksum is right over the whole message, or for a Register over its header.
#[tactic(auto, unfolding(crate::specs::Messages::is_checksum_right))]
fn is_checksum_right(bytes: &[u8]) -> bool
    requires header { 4 ≤ length bytes.now }
    requires register { is_register bytes.now ≡ true → 8 ≤ length bytes.now }
    ensures { result ≡ is_checksum_right bytes.now }
{
    sum16(bytes) == 0 || is_register(bytes) && sum16(&bytes[..REGISTER_HEADER]) == 0
}

/// Reads a message of the type whose header was tested.
#[tactic(auto, unfolding(crate::specs::Messages::body_reading))]
fn read_body(message_type: u8, bytes: &[u8]) -> Result<PimView<'_>, Refusal>
    requires header { 4 ≤ length bytes.now }
    requires register { message_type ≡ 1 → 8 ≤ length bytes.now }
    ensures { result ≡ body_reading message_type bytes.now }
{
    match message_type {
        HELLO => Ok(PimView::Hello(read_hello(bytes)?)),
        REGISTER => Ok(PimView::Register(read_register(bytes)?)),
        REGISTER_STOP => Ok(PimView::RegisterStop(read_register_stop(bytes)?)),
        JOIN_PRUNE => Ok(PimView::JoinPrune(read_join_prune(bytes)?)),
        ASSERT => Ok(PimView::Assert(read_assert(bytes)?)),
        _ => Ok(PimView::Other),
    }
}

/// Reads a PIM message: first the header's tests, then the fields from first to last. The error is that of the first
/// test that fails. Bytes after the message's fields are ignored, but the checksum covers them.
#[tactic(auto, unfolding(crate::specs::Messages::pim_reading))]
pub fn read_pim(bytes: &[u8]) -> Result<PimView<'_>, Refusal>
    ensures { result ≡ pim_reading bytes.now }
{
    if bytes.len() < HEADER_LENGTH {
        return Err(Refusal::Short);
    }
    if bytes[0] >> 4 != VERSION {
        return Err(Refusal::BadVersion);
    }
    if is_register(bytes) && bytes.len() < REGISTER_HEADER {
        return Err(Refusal::Short);
    }
    if !is_checksum_right(bytes) {
        return Err(Refusal::BadChecksum);
    }
    read_body(bytes[0] & 0x0F, bytes)
}
