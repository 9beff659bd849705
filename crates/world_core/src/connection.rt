//! A connection, with its session.
ghost use Rattle.std.specs.Prelude.{◌≡◌, ◌⊎◌, List, [], OnOk, IfOk, IfSome, is_some, option_and_then, if◌then◌else◌};
ghost use Rattle.std.specs.Option.{option_or};
ghost use Rattle.outage_schedule.specs.declared.item.Served.{Served};
ghost use Rattle.std.specs.List.{list_any, AllByRecursion};
ghost use Rattle.canon_bytes.specs.meaning.UpBytes.{spell_up};
ghost use Rattle.canon_bytes.specs.UpBytes.{FitsUp, IsMadeUp};
ghost use Rattle.canon_bytes.specs.DownBytes.{IsMadeDown};
ghost use Rattle.frame_wire.specs.Stream.{with_bytes};
ghost use Rattle.frame_wire.specs.Steps.{stream, AreFrames};
ghost use Rattle.pool_core.specs.meaning.Slots.{after_gone};
ghost use Rattle.world_model.specs.meaning.Frames.{Sent};
ghost use Rattle.world_model.specs.meaning.Links.{Link, new_link, ends, is_close as is_close_def, is_orphan as is_orphan_def, sends};
ghost use Rattle.world_model.specs.meaning.Serving.{Front, is_last as is_last_def, front_of, after_front};
ghost use Rattle.world_model.specs.meaning.Cutting.{reached_of, cut_link, reaped_link};
ghost use Rattle.world_model.specs.meaning.Crashing.{fallen_link};
ghost use Rattle.world_core.specs.CutBytes.{KeepsFirst};
ghost use Rattle.world_core.specs.Linked.{up_frames, told_by_frame, lives_on, may_be_served, IsLink, IsSomeLink, GivesFront, GivesReply};

use crate::wire::Wire;
use frame_wire::{any_cut, cut_leaves_whole_frames, encode_down, encode_up};
use outage_schedule::Reached;
use pool_core::Pool;
use std::alloc::Global;
use svc_values::{Down, Ltxid, NoMemory, SessionId, Up};

/// A connection. It is open until an event ends it, and its session lives from its opening on, also
/// behind a cut. Its frames on their way are kept as bytes, since a cut counts bytes.
///
/// The session has its name once Connect was served, and `held` is the identifier that was taken
/// last.
#[derive(Drop)]
pub struct Connection {
    pub(crate) ended: Option<u64>,
    pub(crate) is_cut: bool,
    pub(crate) is_living: bool,
    pub(crate) session: Option<SessionId>,
    pub(crate) held: Option<Ltxid>,
    up: Wire<Up>,
    down: Wire<Down>,
}

/// Whether a frame closes its connection.
fn is_close(frame: &Up) -> bool
    ensures { result ≡ is_close_def frame.now }
{
    matches!(frame, Up::Close)
}

/// Whether one of the frames closes their connection.
fn has_close(frames: &[Up]) -> bool
    ensures { result ≡ list_any is_close_def frames.now }
{
    frames.iter().any(is_close)
}

/// The identifier that comes with a reply, if there is one: that of the session at its start, or
/// behind a call.
fn told_by(reply: &Option<Down>) -> Option<Ltxid>
    ensures { result ≡ option_and_then told_by_frame reply.now }
{
    match reply {
        Some(Down::Hello { ltxid } | Down::Reply { ltxid, .. }) => Some(*ltxid),
        _ => None,
    }
}

/// Puts the bytes of these frames behind those that wait.
fn push_up(alloc: Global, wire: &mut Wire<Up>, frames: &[Up]) -> Result<(), NoMemory>
    requires { AllByRecursion IsMadeUp frames.now }
    ensures bytes { OnOk result
        (wire.new ≡ with_bytes wire.old (stream spell_up FitsUp frames.now)) }
    ensures fitting { OnOk result (AreFrames spell_up FitsUp frames.now) }
{
    for frame in frames {
        wire.push_vec(alloc, encode_up(alloc, frame)?)?;
    }
    Ok(())
}

impl Connection {
    /// A connection that was opened now. It takes no memory.
    pub(crate) fn new() -> Connection
        ensures { IsLink result new_link }
    {
        Connection {
            ended: None,
            is_cut: false,
            is_living: true,
            session: None,
            held: None,
            up: Wire::new(),
            down: Wire::new(),
        }
    }

    /// The event ends the connection, if it is open.
    pub(crate) fn end(&mut self, event: u64)
        ensures ended { self.new
            ≡ record self.old { ended = option_or self.old.ended (Some event) } }
        ensures link { (link : Link) → IsLink self.old link → IsLink self.new (ends event link) }
    {
        self.ended = self.ended.or(Some(event));
        self.up.settle();
        self.down.settle();
    }

    /// Sends frames to the server. A Close among them ends the connection. Linear in their bytes.
    pub(crate) fn send(&mut self, alloc: Global, event: u64, frames: &[Up]) -> Result<(), NoMemory>
        requires open_for { (frames.now ≡ []) ⊎ (self.old.ended ≡ None) }
        requires made { AllByRecursion IsMadeUp frames.now }
        ensures { OnOk result ((link : Link) (sent : List Sent) → up_frames sent ≡ frames.now
            → IsLink self.old link → IsLink self.new (sends event sent link)) }
    {
        push_up(alloc, &mut self.up, frames)?;
        if has_close(frames) {
            self.end(event);
        }
        Ok(())
    }

    /// Takes off the frame that is served next: the first whole one, while the session lives. What
    /// stands there was spelled here, so a whole frame is no bad one. Linear in the frame.
    pub(crate) fn first_up(&mut self) -> Result<Option<Up>, NoMemory>
        requires { IsSomeLink self.old }
        ensures { IfOk result (λ frame. (link : Link) → IsLink self.old link
            → GivesFront link (front_of link) frame self.new) }
    {
        if !self.is_living {
            return Ok(None);
        }
        any_cut::<Up>();
        let frame = self.up.next()?;
        self.up.give_back(self.ended.is_some());
        Ok(frame)
    }

    /// Whether a frame may be served: a whole one stands there, and the session lives. Constant.
    pub(crate) fn has_front(&self) -> bool
        ensures exact { result ≡ may_be_served self.now }
        ensures link { (link : Link) → IsLink self.now link → result ≡ is_some (front_of link) }
    {
        any_cut::<Up>();
        self.is_living && self.up.has_frame()
    }

    /// Notes that the frame that was taken off was served by this session, which may end with it,
    /// and sends the reply, which goes nowhere once the connection has ended. Linear in the reply.
    pub(crate) fn serve(
        &mut self,
        alloc: Global,
        session: SessionId,
        is_last: bool,
        reply: &Option<Down>,
    ) -> Result<(), NoMemory>
        requires { IfSome reply.now IsMadeDown }
        ensures { OnOk result ((front : Front) (served : Served) → served.session ≡ session
            → is_last_def served.item ≡ is_last
            → IsLink self.old (record front.link { up = front.later })
            → IsLink self.new (after_front front served reply.now)) }
    {
        self.session = Some(session);
        self.is_living = !is_last;
        if self.ended.is_some() {
            return Ok(());
        }
        if let Some(frame) = reply {
            self.down.push_vec(alloc, encode_down(alloc, frame)?)?;
        }
        Ok(())
    }

    /// Takes the reply that stands first, and the identifier that comes with it. What stands there
    /// was spelled here, so a whole frame is no bad one. Linear in the reply.
    pub(crate) fn take(&mut self) -> Result<Option<Down>, NoMemory>
        requires { IsSomeLink self.old }
        ensures { IfOk result (λ reply. (link : Link) → IsLink self.old link
            → GivesReply link link.down reply self.new) }
    {
        any_cut::<Down>();
        let reply = self.down.next()?;
        self.down.give_back(self.ended.is_some());
        self.held = told_by(&reply).or(self.held);
        Ok(reply)
    }

    /// Cuts a connection that is open: of the bytes on their way the first `up` still reach the
    /// server and the first `down` the client. Tells how many that are. Constant, and takes no
    /// memory.
    pub(crate) fn cut(&mut self, event: u64, up: u64, down: u64) -> Reached
        requires { self.old.ended ≡ None }
        ensures link { (link : Link) → IsLink self.old link
            → (result ≡ reached_of link up down) × IsLink self.new (cut_link event up down link) }
        ensures bytes { KeepsFirst up down self.old self.new }
    {
        cut_leaves_whole_frames::<Up>();
        cut_leaves_whole_frames::<Down>();
        let up = (up as usize).min(self.up.waiting());
        let down = (down as usize).min(self.down.waiting());
        self.up.keep_first(up);
        self.down.keep_first(down);
        self.is_cut = true;
        self.end(event);
        Reached {
            up: up as u64,
            down: down as u64,
        }
    }

    /// Whether the connection was cut and its session lives on.
    pub(crate) fn is_orphan(&self) -> bool
        ensures exact { result ≡ lives_on self.now }
        ensures link { (link : Link) → IsLink self.now link → result ≡ is_orphan_def link }
    {
        self.is_living && self.is_cut
    }

    /// Ends the session. Takes no memory.
    pub(crate) fn reap(&mut self)
        ensures { (link : Link) → IsLink self.old link → IsLink self.new (reaped_link link) }
    {
        self.is_living = false;
        self.up.give_back(true);
    }

    /// Leaves the pool, where it is idle under this number, if it is open.
    pub(crate) fn leave(&self, number: u64, pool: &mut Pool)
        ensures { (link : Link) → IsLink self.now link
            → pool.new ≡ (if link.is_open then after_gone pool.old number else pool.old) }
    {
        if self.ended.is_none() {
            pool.gone(number);
        }
    }

    /// The server falls: the connection and its session end, and of what is on its way a reply that
    /// a cut let arrive is left. Constant, and takes no memory.
    pub(crate) fn fall(&mut self, event: u64)
        ensures { (link : Link) → IsLink self.old link → IsLink self.new (fallen_link event link) }
    {
        self.end(event);
        self.is_living = false;
        self.up.keep_first(0);
        if !self.is_cut {
            self.down.keep_first(0);
        }
    }
}
