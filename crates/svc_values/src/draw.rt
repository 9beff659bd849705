//! Draws: the values that a call takes from outside its tables.
ghost use Rattle.std.specs.Prelude.{◌≡◌};
ghost use Rattle.svc_values.specs.meaning.Draws.{is_of_kind as is_of_kind_def};
ghost use Rattle.svc_values.specs.Draws.{is_there as is_there_def};

use crate::list::Listed;
use crate::memory::{NoMemory, TryCopy};
use crate::schema::{Names, has_name};
use crate::text::Name;
use std::alloc::Global;

/// What an operand asks for: a sequence's next value, the clock, or a new identifier.
#[derive(PartialEq, Eq, Drop)]
pub enum DrawKind {
    Seq(Name),
    Clock,
    Id,
}

/// A value that was drawn. A clock draw is a number of ticks. An identifier is the incarnation and
/// a counter from 1 in that incarnation, each as 8 bytes, most significant first.
#[derive(PartialEq, Eq, Drop)]
pub enum Draw {
    Seq { name: Name, value: i64 },
    Clock { tick: u64 },
    Id { id: [u8; 16] },
}

/// Draws in the order in which they were asked for, without a limit.
pub type Draws = Listed<Draw>;

impl TryCopy for DrawKind {
    fn copy(&self, _alloc: Global) -> Result<DrawKind, NoMemory> {
        match self {
            DrawKind::Seq(name) => Ok(DrawKind::Seq(name.copied())),
            DrawKind::Clock => Ok(DrawKind::Clock),
            DrawKind::Id => Ok(DrawKind::Id),
        }
    }
}

impl TryCopy for Draw {
    fn copy(&self, _alloc: Global) -> Result<Draw, NoMemory> {
        match self {
            Draw::Seq { name, value } => Ok(Draw::Seq {
                name: name.copied(),
                value: *value,
            }),
            Draw::Clock { tick } => Ok(Draw::Clock { tick: *tick }),
            Draw::Id { id } => Ok(Draw::Id { id: *id }),
        }
    }
}

/// Whether a draw is of the kind that is asked for, and a sequence's of the name.
pub fn is_of_kind(asked: &DrawKind, draw: &Draw) -> bool
    ensures { result ≡ is_of_kind_def asked.now draw.now }
{
    match asked {
        DrawKind::Seq(asked) => match draw {
            Draw::Seq { name, .. } => *name == *asked,
            _ => false,
        },
        DrawKind::Clock => matches!(draw, Draw::Clock { .. }),
        DrawKind::Id => matches!(draw, Draw::Id { .. }),
    }
}

/// Whether what is asked for is there: a sequence where its name is one of these, and the clock and
/// new identifiers always. Linear in the names.
pub fn is_there(names: &Names, asked: &DrawKind) -> bool
    ensures { result ≡ is_there_def names.now asked.now }
{
    match asked {
        DrawKind::Seq(name) => has_name(names.as_slice(), name),
        DrawKind::Clock | DrawKind::Id => true,
    }
}
