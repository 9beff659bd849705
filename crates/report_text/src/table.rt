//! Tables with their rows.
ghost use Rattle.report_text.specs.meaning.Entries.{table_value};

use crate::value::RowWriter;
use json_form::{TextWriter, Writer};
use outage_schedule::ReportTable;
use std::alloc::{AllocError, Global};

pub(crate) struct TableWriter;

impl Writer<ReportTable> for TableWriter {
    ghost writes = { λ s. table_value };

    #[tactic(auto, unfolding(crate::specs::meaning::Entries::table_value))]
    fn write(
        &self,
        alloc: Global,
        item: &ReportTable,
        out: &mut TextWriter,
    ) -> Result<(), AllocError> {
        out.begin_array()?;
        out.text(item.name.as_str())?;
        out.array_of(alloc, item.rows.as_slice(), &RowWriter)?;
        out.end_array()
    }
}
