//! Reader of the image of a store.
ghost use Rattle.std.specs.Prelude.{◌≡◌, IfOk};
ghost use Rattle.std.specs.List.{list_all};
ghost use Rattle.json_form.specs.Faults.{GivesBy};
ghost use Rattle.commit_log.specs.meaning.Journals.{journal_of};
ghost use Rattle.document_forms.specs.meaning.Numbers.{is_count as is_count_def, is_small_ltxid as is_small_ltxid_def};
ghost use Rattle.doc_reader.specs.meaning.Images.{is_small_reservation as is_small_reservation_def, leaves_room as leaves_room_def, if_store, image_of};

use commit_log::{Journal, Log, LogFault, Reservation};
use disk_model::MemDisk;
use document_limits::Number;
use json_form::{DocCode, DocFault, Reader, octets_in, text_from};
use outage_schedule::Image;
use serde_json::Value as Json;
use std::alloc::Global;
use svc_values::{Entry, Listed, Ltxid};

fn is_count(number: u64) -> bool
    ensures { result ≡ is_count_def number }
{
    number <= Number::Place.limit().most
}

fn is_small_ltxid(x: &Ltxid) -> bool
    ensures { result ≡ is_small_ltxid_def x.now }
{
    is_count(x.incarnation) && is_count(x.session) && is_count(x.number)
}

fn have_small_ltxids(entries: &[Entry]) -> bool
    ensures { result ≡ list_all (λ entry. is_small_ltxid_def entry.ltxid) entries.now }
{
    entries.iter().all(|entry| is_small_ltxid(&entry.ltxid))
}

fn are_small_ltxids(ltxids: &[Ltxid]) -> bool
    ensures { result ≡ list_all is_small_ltxid_def ltxids.now }
{
    ltxids.iter().all(|x| is_small_ltxid(x))
}

fn is_small_reservation(reservation: &Reservation) -> bool
    ensures { result ≡ is_small_reservation_def reservation.now }
{
    reservation.upto <= Number::Reserved.limit().most as i64
}

fn are_small_reservations(reservations: &[Reservation]) -> bool
    ensures { result ≡ list_all is_small_reservation_def reservations.now }
{
    reservations
        .iter()
        .all(|reservation| is_small_reservation(reservation))
}

/// Whether the numbers of the journal leave room for a run.
#[tactic(auto, unfolding(crate::specs::meaning::Images::leaves_room))]
fn leaves_room(journal: &Journal) -> bool
    ensures { result ≡ leaves_room_def journal.now }
{
    is_count(journal.incarnation)
        && have_small_ltxids(journal.entries.as_slice())
        && are_small_ltxids(journal.blocked.as_slice())
        && are_small_reservations(journal.reserved.as_slice())
}

/// The bytes as they are, where a run may begin with them. They are read as a service reads its
/// store, from a disk that has them meanwhile.
fn judge(alloc: Global, bytes: Vec<u8>) -> Result<Vec<u8>, DocFault>
    ensures judged { GivesBy (λ _. tt) result (if_store (journal_of bytes.items)) }
    ensures same { IfOk result (λ kept. kept.items ≡ bytes.items) }
{
    let Ok(mut disk) = MemDisk::over(alloc, bytes) else {
        return Err(DocFault::NoMemory);
    };
    match Log::read(alloc, &mut disk) {
        Ok(journal) if leaves_room(&journal) => Ok(disk.into_bytes()),
        Ok(_) | Err(LogFault::Damaged(_)) => Err(DocFault::here(alloc, DocCode::BadImage)),
        Err(LogFault::NoMemory) => Err(DocFault::NoMemory),
        Err(LogFault::Stopped) => unreachable!(),
    }
}

/// Reads an image, which stands alone or beside tables or sequences.
#[derive(Drop)]
pub(crate) struct ImageReader {
    pub(crate) alone: bool,
}

impl Reader<Option<Image>> for ImageReader {
    ghost reads = { λ s. image_of s.alone };

    #[tactic(auto, unfolding(crate::specs::meaning::Images::image_of))]
    fn read(&self, alloc: Global, value: Json) -> Result<Option<Image>, DocFault> {
        let text = text_from(alloc, value)?;
        if !self.alone {
            return Err(DocFault::here(alloc, DocCode::Rule));
        }
        let bytes = octets_in(alloc, text.as_str())?;
        drop(text);
        let bytes = judge(alloc, bytes)?;
        Ok(Some(Listed::from_vec(bytes)))
    }
}
