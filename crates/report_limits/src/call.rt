//! Calls: that their octets are bytes. What else there is to a call, its document says.
ghost use Rattle.report_text.specs.meaning.Calls.{changing};
ghost use Rattle.report_text.specs.meaning.Octets.{CallOfBytes, OperandOfBytes, StatementOfBytes};

use crate::kept::Kept;
use svc_values::{Call, Change, Operand, Statement};

impl Kept for Operand {
    ghost octets = { OperandOfBytes };

    fn kept(&self) {
        match self {
            Operand::Lit(value) => value.kept(),
            Operand::Var(_) | Operand::Draw(_) => {}
        }
    }
}

impl Kept for Change {
    ghost octets = { λ change. OperandOfBytes (changing change) };

    fn kept(&self) {
        match self {
            Change::To(operand) | Change::Plus(operand) => operand.kept(),
        }
    }
}

impl Kept for Statement {
    ghost octets = { StatementOfBytes };

    fn kept(&self) {
        match self {
            Statement::Insert { values, .. } => values.kept(),
            Statement::Update { key, change, .. } => {
                key.kept();
                change.kept();
            }
            Statement::Delete { key, .. } | Statement::Get { key, .. } => key.kept(),
            Statement::Select { operand, .. } | Statement::Show { operand } => operand.kept(),
            Statement::Count { .. } | Statement::Sum { .. } => {}
        }
    }
}

impl Kept for Call {
    ghost octets = { CallOfBytes };

    fn kept(&self) {
        match self {
            Call::Work { statements, .. } => statements.kept(),
            Call::Set { value, .. } => value.kept(),
            Call::Alter { .. } | Call::Disable | Call::Rollback => {}
        }
    }
}
