//! How many of each thing a document may have.
ghost use Rattle.std.specs.Prelude.{◌≡◌};
ghost use Rattle.document_limits.specs.Limits.{count_limit};

/// What is counted.
#[derive(Clone, Copy)]
pub enum Count {
    /// The bytes of a document.
    Bytes,
    Clients,
    Tables,
    Sequences,
    /// The events of a schedule.
    Events,
    /// The columns of a table.
    Columns,
    /// The rows of a table.
    Rows,
    /// The calls of a request.
    RequestCalls,
    /// The calls of an event `outside`.
    OutsideCalls,
    /// The calls of a document, those of its `outside` events included.
    AllCalls,
    /// The items of a call.
    Items,
    /// The operands of an `insert`.
    Operands,
    /// The different names of settings in a document.
    SettingNames,
}

/// The least and the greatest number of things that are counted.
#[derive(Clone, Copy)]
pub struct CountLimit {
    pub least: usize,
    pub most: usize,
}

/// The greatest length of a document in bytes: 8 MiB.
pub const DOCUMENT_LIMIT: usize = 8_388_608;

/// So many at least, and so many at most.
fn between(least: usize, most: usize) -> CountLimit
    ensures { result ≡ record { least = least; most = most } }
{
    CountLimit { least, most }
}

impl Count {
    /// How many there may be.
    pub fn limit(self) -> CountLimit
        ensures { result ≡ count_limit self }
    {
        match self {
            Count::Bytes => between(0, DOCUMENT_LIMIT),
            Count::Clients => between(0, 64),
            Count::Tables => between(0, 32),
            Count::Sequences => between(0, 32),
            Count::Events => between(0, 100_000),
            Count::Columns => between(1, 8),
            Count::Rows => between(0, 10_000),
            Count::RequestCalls => between(1, 1_024),
            Count::OutsideCalls => between(1, 1_024),
            Count::AllCalls => between(0, 2_048),
            Count::Items => between(1, 8),
            Count::Operands => between(1, 8),
            Count::SettingNames => between(0, 16),
        }
    }
}
