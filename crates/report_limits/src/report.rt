//! The whole report.
ghost use Rattle.report_limits.specs.meaning.Reports.{KeepsLimits};
ghost use Rattle.report_text.specs.meaning.Octets.{ImageOfBytes};

use crate::kept::{Kept, bytes_kept, number_kept};
use outage_schedule::{Image, Report};

/// The octets of the disk, where there are any.
fn image_kept(image: &Option<Image>)
    ensures { ImageOfBytes image.now }
{
    match image {
        None => {}
        Some(octets) => bytes_kept(octets.as_slice()),
    }
}

/// A report keeps to its limits, whatever made it. It is looked through once, which takes a time
/// linear in it and no memory.
pub fn report_kept(report: &Report)
    ensures { KeepsLimits report.now }
{
    report.alerts.kept();
    report.blocked.kept();
    report.clients.kept();
    report.entries.kept();
    number_kept(report.forgotten);
    image_kept(&report.image);
    report.notes.kept();
    report.served.kept();
    report.tables.kept();
}
