//! Values and rows.
ghost use Rattle.report_text.specs.meaning.Values.{literal_value, row_value};

use crate::part::begin_one;
use json_form::{TextWriter, Writer};
use std::alloc::{AllocError, Global};
use svc_values::{Row, Value};

// An integer as a number, a text as a text, and bytes as an object of digits.
pub(crate) struct ValueWriter;

impl Writer<Value> for ValueWriter {
    ghost writes = { λ s. literal_value };

    #[tactic(auto, unfolding(crate::specs::meaning::Values::literal_value))]
    fn write(&self, alloc: Global, item: &Value, out: &mut TextWriter) -> Result<(), AllocError> {
        match item {
            Value::Int(number) => out.integer(*number),
            Value::Text(text) => out.text(text.as_str()),
            Value::Bytes(bytes) => {
                begin_one(out, "hex")?;
                out.octets(alloc, bytes.as_slice())?;
                out.end_object()
            }
        }
    }
}

pub(crate) struct RowWriter;

impl Writer<Row> for RowWriter {
    ghost writes = { λ s. row_value };

    fn write(&self, alloc: Global, item: &Row, out: &mut TextWriter) -> Result<(), AllocError> {
        out.array_of(alloc, item.as_slice(), &ValueWriter)
    }
}
