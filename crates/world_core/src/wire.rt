//! The bytes of one direction of a connection.
ghost use Rattle.std.specs.Prelude.{◌≡◌, ◌≤◌, Bool, List, length, is_some, IfOk, OnOk};
ghost use Rattle.frame_wire.specs.Stream.{Pending, first_payload, nothing_pending, with_bytes, with_first, IsNext};
ghost use Rattle.world_core.specs.Carrying.{Carries};

use canon_bytes::Take;
use frame_wire::{Feed, FrameFault, any_cut};
use std::alloc::Global;
use std::marker::Model;
use svc_values::NoMemory;

/// The bytes of one direction that are on their way, among which no frame is a bad one. It takes
/// memory while bytes wait, and beyond that as long as more may come, so that a connection that is
/// gone leaves little.
#[derive(Drop)]
pub struct Wire<F> {
    feed: Option<Box<Feed<F>>>,
}

impl<F> Model for Wire<F> {
    ghost use Rattle.std.specs.Prelude.{◌≡◌, false, IfSome};
    ghost use Rattle.std.specs.Option.{option_map_or};
    ghost use Rattle.frame_wire.specs.Stream.{Pending, nothing_pending};

    ghost Value = { Pending };

    ghost view = { λ w. option_map_or (λ feed. feed.value) w.feed nothing_pending };

    ghost invariant = { λ w. IfSome w.feed (λ feed. feed.value.bad ≡ false) };
}

impl<F> Wire<F> {
    /// No bytes. It takes no memory.
    pub(crate) fn new() -> Wire<F>
        ensures { result ≡ nothing_pending }
    {
        Wire { feed: None }
    }

    /// Puts bytes behind those that wait. They are given up, and where none wait they are taken
    /// over and not copied.
    pub(crate) fn push_vec(&mut self, alloc: Global, bytes: Vec<u8>) -> Result<(), NoMemory>
        ensures { OnOk result (self.new ≡ with_bytes self.old bytes.items) }
    {
        if let Some(feed) = &mut self.feed {
            return feed.push_vec(bytes);
        }
        let mut feed = Feed::new(alloc);
        feed.push_vec(bytes)?;
        self.feed = Some(Box::new(alloc, feed)?);
        Ok(())
    }

    /// How many bytes wait.
    pub(crate) fn waiting(&self) -> usize
        ensures { result ≡ length self.now.bytes }
    {
        match &self.feed {
            Some(feed) => feed.waiting(),
            None => 0,
        }
    }

    /// Gives up all but the first of the bytes that wait. Constant, and takes no memory.
    pub(crate) fn keep_first(&mut self, bytes: usize)
        requires { bytes ≤ length self.old.bytes }
        ensures { self.new ≡ with_first self.old bytes }
    {
        if bytes == 0 {
            self.feed = None;
            return;
        }
        if let Some(feed) = &mut self.feed {
            feed.keep_first(bytes);
        }
    }

    /// Whether a whole frame stands first. Constant.
    pub(crate) fn has_frame(&self) -> bool
        ensures { result ≡ is_some (first_payload self.now.bytes) }
    {
        match &self.feed {
            Some(feed) => feed.has_frame(),
            None => false,
        }
    }

    /// Gives the memory back in which no bytes wait. Constant.
    pub(crate) fn settle(&mut self)
        ensures { self.new ≡ self.old }
    {
        if self.waiting() == 0 {
            self.feed = None;
        }
    }
}

impl<F: Take + Drop> Wire<F> {
    /// The frame that stands first, which is taken off; `None` exactly where no whole frame stands
    /// first. Linear in the frame.
    pub(crate) fn next(&mut self) -> Result<Option<F>, NoMemory>
        requires good { (after : Pending)
            → IsNext F.spelling F.fits self.old (Err FrameFault.BadFrame) after → ⊥ }
        ensures { IfOk result (λ frame. IsNext F.spelling F.fits self.old (Ok frame) self.new) }
    {
        let Some(feed) = &mut self.feed else {
            return Ok(None);
        };
        match feed.next() {
            Ok(frame) => Ok(frame),
            Err(FrameFault::NoMemory) => Err(NoMemory),
            Err(FrameFault::BadFrame) => unreachable!(),
        }
    }

    /// Gives back what can be read no more, where nothing is to come: a part of a frame, and the
    /// place of frames that were taken. Constant.
    pub(crate) fn give_back(&mut self, has_ended: bool)
        ensures { (is_open : Bool) (frames : List F)
            → Carries F.spelling F.fits is_open frames self.old
            → Carries F.spelling F.fits is_open frames self.new }
    {
        any_cut::<F>();
        if has_ended && !self.has_frame() {
            self.keep_first(0);
        }
    }
}
