//! Operands, in the document's form.
ghost use Rattle.report_text.specs.meaning.Calls.{operand_value};

use crate::part::one_text;
use crate::value::ValueWriter;
use json_form::{TextWriter, Writer};
use std::alloc::{AllocError, Global};
use svc_values::{DrawKind, Operand};

pub(crate) struct OperandWriter;

impl Writer<Operand> for OperandWriter {
    ghost writes = { λ s. operand_value };

    #[tactic(auto, unfolding(crate::specs::meaning::Calls::operand_value))]
    fn write(&self, alloc: Global, item: &Operand, out: &mut TextWriter) -> Result<(), AllocError> {
        match item {
            Operand::Lit(value) => ValueWriter.write(alloc, value, out),
            Operand::Var(name) => one_text(out, "var", name.as_str()),
            Operand::Draw(DrawKind::Seq(name)) => one_text(out, "seq", name.as_str()),
            Operand::Draw(DrawKind::Clock) => one_text(out, "draw", "clock"),
            Operand::Draw(DrawKind::Id) => one_text(out, "draw", "id"),
        }
    }
}
