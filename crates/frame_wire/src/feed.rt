//! Bytes that arrive in pieces, and the frames that stand in them.
ghost use Rattle.std.specs.Prelude.{◌≡◌, ◌≢◌, ◌+◌, ◌<◌, ◌≤◌, ◌^◌, ◌++◌, length, drop, OnOk, OnErr, IfOk, IfSome, is_some};
ghost use Rattle.std.specs.Option.{option_map};
ghost use Rattle.canon_bytes.specs.meaning.TextBytes.{spell_bytes};
ghost use Rattle.frame_wire.specs.Stream.{nothing_pending, with_bytes, with_first, first_payload, IsNext};

use bytes::BytesMut;
use canon_bytes::{ReadFault, Take};
use std::alloc::Global;
use std::marker::{Model, PhantomData};
use svc_values::{Down, NoMemory, Up};
use thiserror::Error;

/// Why there is no frame.
#[derive(Clone, Copy, Debug, PartialEq, Eq, Error)]
pub enum FrameFault {
    /// The feed is as it was.
    #[error("out of memory")]
    NoMemory,
    /// A whole frame stands first and its payload is none, now or at an earlier call.
    #[error("bytes that are no frame")]
    BadFrame,
}

/// The frames of one direction, from bytes that arrive in pieces. Each byte pushed is copied in
/// once at most, and one that was read is given up.
#[derive(Drop)]
pub struct Feed<F> {
    alloc: Global,
    bytes: BytesMut,
    bad: bool,
    of: PhantomData<F>,
}

/// The frames to the server.
pub type UpFeed = Feed<Up>;

/// The frames to the client.
pub type DownFeed = Feed<Down>;

impl<F> Model for Feed<F> {
    ghost use Rattle.frame_wire.specs.Stream.{Pending};

    ghost Value = { Pending };

    ghost view = { λ f. record { bytes = f.bytes.items; bad = f.bad } };
}

/// The payload of the frame that stands first, where it has arrived whole. Only the length is read.
#[tactic(auto, unfolding(crate::specs::Stream::first_payload, canon_bytes::specs::meaning::TextBytes::spell_bytes, canon_bytes::specs::meaning::Numbers::spell_u64))]
fn payload_of(bytes: &[u8]) -> Option<&[u8]>
    ensures exact { option_map (λ payload. payload.now) result ≡ first_payload bytes.now }
    ensures front { IfSome result (λ payload. bytes.now ≡ spell_bytes payload.now
        ++ drop (8 + length payload.now) bytes.now) }
    ensures within { IfSome result (λ payload. 8 + length payload.now ≤ length bytes.now) }
    ensures short { IfSome result (λ payload. length payload.now < 2 ^ 64) }
{
    let (length, rest) = bytes.split_first_chunk::<8>()?;
    let length = u64::from_be_bytes(*length);
    if (rest.len() as u64) < length {
        return None;
    }
    Some(&rest[..length as usize])
}

/// The frame that has this payload.
fn frame_of<F: Take + Drop>(alloc: Global, payload: &[u8]) -> Result<F, FrameFault>
    ensures found { IfOk result (λ frame. payload.now ≡ F.spelling frame) }
    ensures fitting { IfOk result (λ frame. F.fits frame) }
    ensures none { result ≡ Err FrameFault.BadFrame → (frame : F) → F.fits frame
        → F.spelling frame ≢ payload.now }
{
    let (frame, rest) = match F::take(alloc, payload) {
        Ok(first) => first,
        Err(ReadFault::NoMemory) => return Err(FrameFault::NoMemory),
        Err(ReadFault::Fault(_)) => return Err(FrameFault::BadFrame),
    };
    if !rest.is_empty() {
        return Err(FrameFault::BadFrame);
    }
    Ok(frame)
}

impl<F> Feed<F> {
    /// A feed without bytes. It takes no memory before the first push.
    pub fn new(alloc: Global) -> Feed<F>
        ensures { result ≡ nothing_pending }
    {
        Feed {
            alloc,
            bytes: BytesMut::new(alloc),
            bad: false,
            of: PhantomData,
        }
    }

    /// Puts bytes behind those that wait, or leaves the feed as it was where memory is refused.
    /// Linear in the bytes, spread over the pushes.
    pub fn push(&mut self, bytes: &[u8]) -> Result<(), NoMemory>
        ensures ok { OnOk result (self.new ≡ with_bytes self.old bytes.now) }
        ensures err { OnErr result (self.new ≡ self.old) }
    {
        self.bytes.extend_from_slice(bytes)?;
        Ok(())
    }

    /// The same with bytes that are given up: where none wait, they are taken over and not copied.
    pub fn push_vec(&mut self, bytes: Vec<u8>) -> Result<(), NoMemory>
        ensures ok { OnOk result (self.new ≡ with_bytes self.old bytes.items) }
        ensures err { OnErr result (self.new ≡ self.old) }
    {
        if self.bytes.is_empty() {
            self.bytes = BytesMut::from_vec(bytes);
            return Ok(());
        }
        self.push(&bytes)
    }

    /// How many bytes wait: those that are not yet read as frames.
    pub fn waiting(&self) -> usize
        ensures { result ≡ length self.now.bytes }
    {
        self.bytes.len()
    }

    /// Gives up all but the first of the bytes that wait. It takes no memory, and constant time;
    /// where none are left their memory is given back.
    pub fn keep_first(&mut self, bytes: usize)
        requires { bytes ≤ length self.old.bytes }
        ensures { self.new ≡ with_first self.old bytes }
    {
        if bytes == 0 {
            self.bytes = BytesMut::new(self.alloc);
            return;
        }
        self.bytes.truncate(bytes);
    }

    /// Whether a whole frame stands first, or a bad one. Constant: only its length is read.
    pub fn has_frame(&self) -> bool
        ensures { result ≡ is_some (first_payload self.now.bytes) }
    {
        payload_of(self.bytes.as_slice()).is_some()
    }
}

impl<F: Take + Drop> Feed<F> {
    /// The frame that stands first, which is taken off; `None` exactly where no whole frame stands
    /// first, however large its length; `BadFrame` exactly where a whole frame stands first whose
    /// payload is none, or an earlier call answered so. Linear in the frame, spread over the calls;
    /// where none stands first only its length is read.
    pub fn next(&mut self) -> Result<Option<F>, FrameFault>
        ensures { IsNext F.spelling F.fits self.old result self.new }
    {
        if self.bad {
            return Err(FrameFault::BadFrame);
        }
        let Some(payload) = payload_of(self.bytes.as_slice()) else {
            return Ok(None);
        };
        let length = payload.len();
        match frame_of(self.alloc, payload) {
            Ok(frame) => {
                self.bytes.advance(8 + length);
                Ok(Some(frame))
            }
            Err(FrameFault::NoMemory) => Err(FrameFault::NoMemory),
            Err(FrameFault::BadFrame) => {
                self.bad = true;
                Err(FrameFault::BadFrame)
            }
        }
    }
}
