//! A walk over the records of a store, one by one.
ghost use Rattle.std.specs.Prelude.{◌≡◌, ◌+◌, ◌≤◌, ◌<◌, [], ◌∷◌, ◌++◌, ℕ, List, length, map, take, OnErr, IfOk, IfSome, IfNone, IsErrOf, Ok, Err};
ghost use Rattle.disk_model.specs.Disk.{DiskState, IsSettled, OnlyReads};
ghost use Rattle.redo_store.specs.meaning.Records.{magic, records_of, whole_records};

use crate::fault::RedoFault;
use crate::record::{MAGIC, check_magic};
use crate::redo::Redo;
use disk_model::Disk;
use std::alloc::Global;

/// A walk over the records of a store. It holds the place of a gate and the number of records
/// before it, and no record.
#[derive(Drop)]
pub struct Walk {
    alloc: Global,
    place: u64,
    count: u64,
    ghost few: { count ≤ place },
}

impl Walk {
    ghost use Rattle.redo_store.specs.Redo.{CanAppend, count_of, tail_of};
    ghost use Rattle.redo_store.specs.Walk.{place_of, StandsBehind, HasRead};

    /// Reads what the bytes begin with, and stands at the first gate. It takes no memory.
    pub fn begin<D: Disk>(alloc: Global, disk: &mut D) -> Result<Walk, RedoFault>
        ensures begun { IfOk result (λ walk. HasRead walk [] (D.state disk.old).now.seen) }
        ensures place { IfOk result (λ walk. place_of walk ≡ 8) }

        // The place is 0 where the first eight bytes are not those of a store, and only there.
        ensures damaged { (at : ℕ) → IsErrOf result (RedoFault.Damaged at)
            → (at ≡ 0) × (records_of (D.state disk.old).now.seen ≡ Err 0)
            × (whole_records (D.state disk.old).now.seen ≡ []) }
        ensures whole { take 8 (D.state disk.old).now.seen ≡ magic → (at : ℕ)
            → IsErrOf result (RedoFault.Damaged at) → ⊥ }
        ensures no_memory { IsErrOf result RedoFault.NoMemory → ⊥ }
        ensures only_reads { OnlyReads (IsErrOf result RedoFault.Stopped) (D.state disk.old)
            (D.state disk.new) }
    {
        check_magic(disk)?;
        Ok(Walk {
            alloc,
            place: MAGIC.len() as u64,
            count: 0,
        })
    }

    /// A walk that stands at this gate, behind so many records. It reads nothing.
    pub fn behind(alloc: Global, place: u64, count: u64) -> Walk
        requires few { count ≤ place }
        ensures read { (image : List ℕ) (done : List (List ℕ))
            → StandsBehind place done image → count ≡ length done → HasRead result done image }
        ensures place { place_of result ≡ place }
    {
        Walk {
            alloc,
            place,
            count,
        }
    }

    /// The offset of the gate that the walk stands at.
    pub fn place(&self) -> u64
        ensures { result ≡ place_of self.now }
    {
        self.place
    }

    /// Reads the payload of the record at the gate, and goes on behind it; none where the gate is
    /// closed.
    ///
    /// It reads in calls of at most 4,096 bytes, and its time and memory grow with the payload
    /// alone. After any error the walk stands where it did.
    pub fn next<D: Disk>(&mut self, disk: &mut D) -> Result<Option<Vec<u8>>, RedoFault>
        ensures record { (done : List (List ℕ)) → HasRead self.old done (D.state disk.old).now.seen
            → IfOk result (λ found. IfSome found
            (λ payload. HasRead self.new (done ++ payload.items ∷ [])
            (D.state disk.old).now.seen)) }
        ensures place { IfOk result (λ found. IfSome found (λ payload. place_of self.new
            ≡ place_of self.old + 9 + length payload.items)) }

        ensures within { IfOk result (λ found. IfSome found (λ _.
            place_of self.new < length (D.state disk.old).now.seen)) }

        // At the closed gate all records were read.
        ensures end { (done : List (List ℕ)) → HasRead self.old done (D.state disk.old).now.seen
            → IfOk result (λ found. IfNone found ((records_of (D.state disk.old).now.seen ≡ Ok done)
            × (whole_records (D.state disk.old).now.seen ≡ done))) }
        ensures ended { IfOk result (λ found. IfNone found (self.new ≡ self.old)) }

        // The place of a damage is that of the gate with no whole record behind it.
        ensures damaged { (at : ℕ) → IsErrOf result (RedoFault.Damaged at)
            → at ≡ place_of self.old }
        ensures damage { (at : ℕ) → IsErrOf result (RedoFault.Damaged at) → (done : List (List ℕ))
            → HasRead self.old done (D.state disk.old).now.seen
            → (records_of (D.state disk.old).now.seen ≡ Err at)
            × (whole_records (D.state disk.old).now.seen ≡ done) }
        ensures stays { OnErr result (self.new ≡ self.old) }
        ensures only_reads { OnlyReads (IsErrOf result RedoFault.Stopped) (D.state disk.old)
            (D.state disk.new) }
    {
        let Some((payload, behind)) = Redo::record_at(self.alloc, disk, self.place)? else {
            return Ok(None);
        };
        self.place = behind;
        self.count += 1;
        Ok(Some(payload))
    }

    /// The payloads of all records from the gate on, in order. The walk stands at the closed gate
    /// then.
    ///
    /// Time and memory grow with these records alone. After an error the walk stands behind those
    /// that it had gone over by then, whose payloads are gone.
    pub fn rest<D: Disk>(&mut self, disk: &mut D) -> Result<Vec<Vec<u8>>, RedoFault>
        ensures records { (done : List (List ℕ)) → HasRead self.old done (D.state disk.old).now.seen
            → IfOk result (λ rest.
            records_of (D.state disk.old).now.seen ≡ Ok (done ++ map (λ payload. payload.items) rest.items)) }
        ensures read { (done : List (List ℕ)) → HasRead self.old done (D.state disk.old).now.seen
            → IfOk result (λ rest.
            HasRead self.new (done ++ map (λ payload. payload.items) rest.items) (D.state disk.old).now.seen) }

        // The place of a damage is that of the first gate with no whole record behind it.
        ensures damaged { (at : ℕ) → IsErrOf result (RedoFault.Damaged at)
            → (done : List (List ℕ)) → HasRead self.old done (D.state disk.old).now.seen
            → records_of (D.state disk.old).now.seen ≡ Err at }
        ensures stands { (done : List (List ℕ)) → HasRead self.old done (D.state disk.old).now.seen
            → OnErr result ((more : List (List ℕ))
            × HasRead self.new (done ++ more) (D.state disk.old).now.seen) }
        ensures only_reads { OnlyReads (IsErrOf result RedoFault.Stopped) (D.state disk.old)
            (D.state disk.new) }
    {
        let mut payloads = Vec::new(self.alloc);
        while let Some(payload) = self.next(disk)? {
            payloads.push(payload)?;
        }
        Ok(payloads)
    }

    /// The store to go on with, where the walk stands at the closed gate behind the last record.
    /// Where it does not, more records stand behind those of that store.
    pub fn finish(self) -> Redo
        ensures place { tail_of result ≡ place_of self }
        ensures count { count_of result ≡ self.count }
        ensures ready { (disk : DiskState) (done : List (List ℕ)) → HasRead self done disk.now.seen
            → records_of disk.now.seen ≡ Ok done → IsSettled disk → CanAppend result disk }
    {
        Redo::behind(self.alloc, self.place, self.count)
    }
}
