//! Bootstraps that say RPs of ranges, written (RFC 5059, sections 3.3 and 4.1.1).
ghost use Rattle.std.specs.Prelude.{◌≡◌, ◌+◌, ◌*◌, ◌^◌, ◌<◌, ◌≤◌, [], ◌∷◌, ◌++◌, fold, length, map, IfOk, OnOk, if◌then◌else◌};
ghost use Rattle.std.specs.List.{All, flat_map};
ghost use Rattle.byteorder.specs.Endian.{big_bytes};
ghost use Rattle.pim_bootstrap.specs.Bootstraps.{bootstrap_text, candidate_text, range_text};
ghost use Rattle.pim_bootstrap.specs.Fragments.{fragments, piece_of};
ghost use Rattle.pim_bootstrap.specs.FragmentTexts.{IsWritable, IsWritablePiece, begun, ended, head_text, piece_value, range_length, range_rps, summed, with_text, with_texts};

use crate::bootstrap::{CANDIDATE_LENGTH, CandidateRp, RANGE_HEADER};
use crate::encoded::{CHECKSUM_PLACE, VERSION_BITS};
use pim_ip::{Addr, Prefix, set_checksum};
use std::alloc::{AllocError, Global};
use std::marker::Model;
use std::mem;

/// A range of groups with all its RPs; one without RPs is to go.
#[derive(Clone, Copy)]
pub struct GroupRange<'a> {
    pub prefix: Prefix,
    /// At most 255, in the order in which they are written.
    pub rps: &'a [CandidateRp],
}

/// What all fragments of a message have in common.
#[derive(Clone, Copy)]
pub struct BootstrapHead {
    /// The No-Forward bit.
    pub no_forward: bool,
    /// The fragment tag.
    pub tag: u16,
    /// The length of the hash function's mask, at most 32.
    pub hash_length: u8,
    /// The BSR's priority; the higher number is preferred.
    pub priority: u8,
    pub bsr: Addr,
}

/// RPs of a range in one fragment.
#[derive(Clone, Copy)]
struct Piece<'a> {
    prefix: Prefix,
    /// How many the range has in all fragments.
    rp_count: u8,
    rps: &'a [CandidateRp],
}

/// The most bytes of a message.
const MOST_BYTES: usize = 1460;

/// The most RPs of a range in one fragment.
const MOST_TOGETHER: usize = 143;

/// The second byte of a message.
fn forward_bits(no_forward: bool) -> u8
    ensures { result ≡ (if no_forward then 0x80 else 0) }
{
    if no_forward { 0x80 } else { 0 }
}

/// A message before its ranges, with 0 for the checksum.
fn head_bytes(head: BootstrapHead) -> [u8; 14]
    ensures { result ≡ head_text head }
{
    let [high, low] = head.tag.to_be_bytes();
    let [first, second, third, fourth] = head.bsr.octets();
    [
        VERSION_BITS + 4,
        forward_bits(head.no_forward),
        0,
        0,
        high,
        low,
        head.hash_length,
        head.priority,
        1,
        0,
        first,
        second,
        third,
        fourth,
    ]
}

/// The bytes of an RP.
fn candidate_bytes(candidate: CandidateRp) -> [u8; 10]
    ensures { result ≡ candidate_text candidate }
{
    let [first, second, third, fourth] = candidate.address.octets();
    let [high, low] = candidate.holdtime.to_be_bytes();
    [
        1,
        0,
        first,
        second,
        third,
        fourth,
        high,
        low,
        candidate.priority,
        0,
    ]
}

fn push_candidates(rps: &[CandidateRp], out: &mut Vec<u8>) -> Result<(), AllocError>
    ensures ok { OnOk result (out.new.items ≡ out.old.items ++ flat_map candidate_text rps.now) }
    ensures longer { length out.old.items ≤ length out.new.items }
{
    for candidate in rps {
        out.extend_from_slice(&candidate_bytes(*candidate))?;
    }
    Ok(())
}

impl<'a> Piece<'a> {
    /// How many bytes it takes.
    fn length(&self) -> usize
        requires { length self.now.rps.now < 2 ^ 8 }
        ensures { result ≡ range_length (piece_value self.now) }
    {
        RANGE_HEADER + CANDIDATE_LENGTH * self.rps.len()
    }

    /// The bytes before the RPs.
    fn fields(&self) -> [u8; 12]
        requires { IsWritablePiece self.now }
        ensures { result ≡ 1 ∷ 0 ∷ 0 ∷ self.now.prefix.length ∷ big_bytes 4 self.now.prefix.address.bits
            ++ (self.now.rp_count ∷ length self.now.rps.now ∷ 0 ∷ 0 ∷ []) }
    {
        let [first, second, third, fourth] = self.prefix.address.octets();
        let mask = self.prefix.length as u8;
        let count = self.rps.len() as u8;
        [
            1,
            0,
            0,
            mask,
            first,
            second,
            third,
            fourth,
            self.rp_count,
            count,
            0,
            0,
        ]
    }

    #[tactic(auto, unfolding(crate::specs::Bootstraps::range_text))]
    fn push(&self, out: &mut Vec<u8>) -> Result<(), AllocError>
        requires { IsWritablePiece self.now }
        ensures ok { OnOk result (out.new.items ≡ out.old.items ++ range_text (piece_value self.now)) }
        ensures longer { length out.old.items ≤ length out.new.items }
    {
        out.extend_from_slice(&self.fields())?;
        push_candidates(self.rps, out)
    }
}

impl<'a> GroupRange<'a> {
    /// The range with some of its RPs.
    fn piece(&self, rps: &'a [CandidateRp]) -> Piece<'a>
        requires { length self.now.rps.now < 2 ^ 8 }
        ensures value { piece_value result ≡ piece_of (range_rps self.now) rps.now }
        ensures mask { result.prefix ≡ self.now.prefix }
        ensures rps { result.rps.now ≡ rps.now }
    {
        Piece {
            prefix: self.prefix,
            rp_count: self.rps.len() as u8,
            rps,
        }
    }
}

/// Messages that are full, and the one that is being filled, which has 0 for its checksum.
#[derive(Drop)]
struct Filling {
    full: Vec<Vec<u8>>,
    current: Vec<u8>,
}

impl Model for Filling {
    ghost use Rattle.std.specs.Prelude.{◌≤◌, length, map};
    ghost use Rattle.pim_bootstrap.specs.FragmentTexts.{Texts};

    ghost Value = { Texts };

    ghost view = { λ f. record { full = map (λ bytes. bytes.items) f.full.items; current = f.current.items } };

    ghost invariant = { λ f. 4 ≤ length f.current.items };
}

impl Filling {
    fn new(alloc: Global, head: BootstrapHead) -> Result<Filling, AllocError>
        ensures { IfOk result (λ filling. filling ≡ begun head) }
    {
        Ok(Filling {
            full: Vec::new(alloc),
            current: Vec::from_slice(alloc, &head_bytes(head))?,
        })
    }

    /// Ends the message that is being filled, and begins the next one.
    fn end(&mut self, alloc: Global, head: BootstrapHead) -> Result<(), AllocError>
        ensures { OnOk result (self.new ≡ ended head self.old) }
    {
        let next = Vec::from_slice(alloc, &head_bytes(head))?;
        let mut full = mem::replace(&mut self.current, next);
        set_checksum(&mut full, CHECKSUM_PLACE);
        self.full.push(full)?;
        Ok(())
    }

    /// Writes RPs of a range where they have room.
    #[tactic(auto, unfolding(crate::specs::FragmentTexts::with_text))]
    fn put(
        &mut self,
        alloc: Global,
        head: BootstrapHead,
        piece: &Piece<'_>,
    ) -> Result<(), AllocError>
        requires { IsWritablePiece piece.now }
        ensures { OnOk result (self.new ≡ with_text head self.old (piece_value piece.now)) }
    {
        if self.current.len() + piece.length() > MOST_BYTES {
            self.end(alloc, head)?;
        }
        piece.push(&mut self.current)
    }

    /// Writes a range with its RPs.
    #[tactic(auto, unfolding(crate::specs::Fragments::pieces_of))]
    fn put_range(
        &mut self,
        alloc: Global,
        head: BootstrapHead,
        range: &GroupRange<'_>,
    ) -> Result<(), AllocError>
        requires { IsWritable range.now }
        ensures { OnOk result (self.new ≡ with_texts head self.old (range_rps range.now)) }
    {
        if range.rps.len() <= MOST_TOGETHER {
            return self.put(alloc, head, &range.piece(range.rps));
        }
        let (first, rest) = range.rps.split_at(MOST_TOGETHER);
        self.put(alloc, head, &range.piece(first))?;
        self.put(alloc, head, &range.piece(rest))
    }

    /// The messages, with the last one.
    fn finished(self) -> Result<Vec<Vec<u8>>, AllocError>
        ensures { IfOk result (λ messages. map (λ bytes. bytes.items) messages.items
            ≡ self.full ++ summed self.current ∷ []) }
    {
        let Filling { full, current } = self;
        let mut full = full;
        let mut current = current;
        set_checksum(&mut current, CHECKSUM_PLACE);
        full.push(current)?;
        Ok(full)
    }
}

/// The messages that say RPs of ranges, at most 1,460 bytes each. The RPs of a range stand in one message where one holds
/// them, which is so up to 143. The error is want of memory.
pub fn write_bootstrap(
    alloc: Global,
    head: BootstrapHead,
    ranges: &[GroupRange<'_>],
) -> Result<Vec<Vec<u8>>, AllocError>
    requires { All IsWritable ranges.now }
    ensures { IfOk result (λ messages. map (λ bytes. bytes.items) messages.items
        ≡ map bootstrap_text (fragments head (map range_rps ranges.now))) }
{
    let mut filling = Filling::new(alloc, head)?;
    for range in ranges {
        filling.put_range(alloc, head, range)?;
    }
    filling.finished()
}
