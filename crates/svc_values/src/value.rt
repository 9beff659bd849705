//! Values and rows.
ghost use Rattle.std.specs.Prelude.{◌≡◌};
ghost use Rattle.svc_values.specs.meaning.Kinds.{kind_of};

use crate::list::Limited;
use crate::memory::{NoMemory, TryCopy};
use crate::text::{Octets, Text};
use std::alloc::Global;

/// The kind of a column and of a value.
#[derive(Clone, Copy, Debug, PartialEq, Eq)]
pub enum Kind {
    Int,
    Text,
    Bytes,
}

/// A value. Integers are in order of number, texts and bytes in order of their bytes.
#[derive(PartialEq, Eq, PartialOrd, Ord, Drop)]
pub enum Value {
    Int(i64),
    Text(Text),
    Bytes(Octets),
}

/// The values of a row, in order of the table's columns: at most eight. The first is its key.
pub type Row = Limited<Value, 8>;

impl Value {
    /// The kind of the value, which is that of the columns that it fits.
    pub fn kind(&self) -> Kind
        ensures { result ≡ kind_of self.now }
    {
        match self {
            Value::Int(_) => Kind::Int,
            Value::Text(_) => Kind::Text,
            Value::Bytes(_) => Kind::Bytes,
        }
    }
}

impl TryCopy for Value {
    fn copy(&self, alloc: Global) -> Result<Value, NoMemory> {
        match self {
            Value::Int(n) => Ok(Value::Int(*n)),
            Value::Text(text) => Ok(Value::Text(text.copy(alloc)?)),
            Value::Bytes(bytes) => Ok(Value::Bytes(bytes.copy(alloc)?)),
        }
    }
}

impl TryCopy for Kind {
    fn copy(&self, _alloc: Global) -> Result<Kind, NoMemory> {
        Ok(*self)
    }
}
