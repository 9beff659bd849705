//! What is counted over a whole document: calls, and different names of settings.
ghost use Rattle.std.specs.Prelude.{◌≡◌, length, map, [], ◌∷◌, ◌++◌, IfOk, IfErr};
ghost use Rattle.std.specs.List.{flat_map};
ghost use Rattle.json_form.specs.declared.fault.DocFault.TheVariants.{NoMemory};
ghost use Rattle.json_form.specs.Faults.{Gives};
ghost use Rattle.svc_values.specs.meaning.Calls.{operand_of};
ghost use Rattle.doc_reader.specs.meaning.Counts.{calls_in_request, calls_in_client, calls_in_event, names_in_operand, names_in_statement, names_in_call, names_in_request, names_in_client, names_in_event, names_in, has_few_calls as has_few_calls_def, if_small};
ghost use Rattle.doc_reader.specs.InnerCounting.{left_of, noted as noted_def, noted_all, if_few_names};

use call_forms::copied;
use document_limits::Count;
use json_form::{DocCode, DocFault};
use outage_schedule::{Client, Document, Event, Request};
use std::alloc::Global;
use svc_values::{Call, Change, ListFault, Listed, Name, Operand, Settings, Statement, has_name};

/// What has calls.
trait Calling {
    ghost use Rattle.std.specs.Prelude.{List};
    ghost use Rattle.svc_values.specs.declared.call.Call.{Call as Called};

    ghost calls: { Self → List Called };

    /// How many calls more may come after these, if they are not too many.
    fn left(&self, left: usize) -> Option<usize>
        ensures { result ≡ left_of left (length (calls self.now)) };
}

/// How many calls more may come after those of all these, if they are not too many.
fn left_after<T: Calling>(items: &[T], before: usize) -> Option<usize>
    ensures { result ≡ left_of before (length (flat_map T.Calling.calls items.now)) }
{
    let mut left = before;
    for item in items {
        let Some(rest) = item.left(left) else {
            return None;
        };
        left = rest;
    }
    Some(left)
}

impl Calling for Request {
    ghost calls = { calls_in_request };

    fn left(&self, left: usize) -> Option<usize> {
        left.checked_sub(self.calls.len())
    }
}

impl Calling for Client {
    ghost calls = { calls_in_client };

    fn left(&self, left: usize) -> Option<usize> {
        left_after(self.requests.as_slice(), left)
    }
}

impl Calling for Event {
    ghost calls = { calls_in_event };

    fn left(&self, left: usize) -> Option<usize> {
        match self {
            Event::Outside { calls } => left.checked_sub(calls.len()),
            _ => Some(left),
        }
    }
}

fn has_few_calls(document: &Document) -> bool
    ensures { result ≡ has_few_calls_def document.now }
{
    match left_after(document.clients.as_slice(), Count::AllCalls.limit().most) {
        Some(left) => left_after(document.schedule.as_slice(), left).is_some(),
        None => false,
    }
}

/// Names of settings, each once.
type Different = Listed<Name>;

/// The different names so far and this one, if that is not too many.
fn noted(alloc: Global, before: Different, name: &Name) -> Result<Different, DocFault>
    ensures { Gives result (noted_def before name.now) }
{
    if has_name(before.as_slice(), name) {
        return Ok(before);
    }
    if before.len() >= Count::SettingNames.limit().most {
        return Err(DocFault::here(alloc, DocCode::Limit));
    }
    with_name(alloc, before, name)
}

fn with_name(alloc: Global, before: Different, name: &Name) -> Result<Different, DocFault>
    ensures made { IfOk result (λ names. names ≡ before ++ name.now ∷ []) }
    ensures refused { IfErr result (λ e. e ≡ NoMemory) }
{
    let mut names = before;
    let name = copied(alloc, name)?;
    match names.push(name) {
        Ok(()) => Ok(names),
        Err(ListFault::NoMemory) => Err(DocFault::NoMemory),
        Err(ListFault::TooMany) => unreachable!(),
    }
}

/// What has names of settings.
trait Naming {
    ghost use Rattle.std.specs.Prelude.{List, ℕ};

    ghost names: { Self → List (List ℕ) };

    /// The different names so far and these, if they are not too many.
    fn note(&self, alloc: Global, before: Different) -> Result<Different, DocFault>
        ensures { Gives result (noted_all before (names self.now)) };
}

/// The different names so far and those of all these, if they are not too many.
fn note_each<T: Naming>(
    alloc: Global,
    before: Different,
    items: &[T],
) -> Result<Different, DocFault>
    ensures { Gives result (noted_all before (flat_map T.Naming.names items.now)) }
{
    let mut names = before;
    for item in items {
        names = item.note(alloc, names)?;
    }
    Ok(names)
}

impl Naming for Operand {
    ghost names = { names_in_operand };

    #[tactic(auto, using(crate::proofs::Naming::one_noted))]
    fn note(&self, alloc: Global, before: Different) -> Result<Different, DocFault> {
        match self {
            Operand::Var(name) => noted(alloc, before, name),
            Operand::Lit(_) | Operand::Draw(_) => Ok(before),
        }
    }
}

fn note_change(alloc: Global, before: Different, change: &Change) -> Result<Different, DocFault>
    ensures { Gives result (noted_all before (names_in_operand (operand_of change.now))) }
{
    match change {
        Change::To(operand) | Change::Plus(operand) => operand.note(alloc, before),
    }
}

fn note_update(
    alloc: Global,
    before: Different,
    key: &Operand,
    change: &Change,
) -> Result<Different, DocFault>
    ensures { Gives result (noted_all before
        (flat_map names_in_operand (key.now ∷ operand_of change.now ∷ []))) }
{
    let names = key.note(alloc, before)?;
    note_change(alloc, names, change)
}

impl Naming for Statement {
    ghost names = { names_in_statement };

    #[tactic(auto, unfolding(crate::specs::meaning::Counts::names_in_statement), using(crate::proofs::Naming::only_one))]
    fn note(&self, alloc: Global, before: Different) -> Result<Different, DocFault> {
        match self {
            Statement::Insert { values, .. } => note_each(alloc, before, values.as_slice()),
            Statement::Update { key, change, .. } => note_update(alloc, before, key, change),
            Statement::Delete { key, .. } | Statement::Get { key, .. } => key.note(alloc, before),
            Statement::Select { operand, .. } | Statement::Show { operand } => {
                operand.note(alloc, before)
            }
            Statement::Count { .. } | Statement::Sum { .. } => Ok(before),
        }
    }
}

impl Naming for Call {
    ghost names = { names_in_call };

    #[tactic(auto, using(crate::proofs::Naming::one_noted))]
    fn note(&self, alloc: Global, before: Different) -> Result<Different, DocFault> {
        match self {
            Call::Work { statements, .. } => note_each(alloc, before, statements.as_slice()),
            Call::Set { name, .. } => noted(alloc, before, name),
            Call::Alter { .. } | Call::Disable | Call::Rollback => Ok(before),
        }
    }
}

/// The different names so far and those of the settings.
fn note_settings(
    alloc: Global,
    before: Different,
    settings: &Settings,
) -> Result<Different, DocFault>
    ensures { Gives result (noted_all before (map (λ pair. pair.0) settings.now)) }
{
    let mut names = before;
    for (name, _value) in settings.as_map() {
        names = noted(alloc, names, name)?;
    }
    Ok(names)
}

impl Naming for Request {
    ghost names = { names_in_request };

    #[tactic(auto, using(crate::proofs::Naming::more_noted, crate::proofs::Naming::fails_noted))]
    fn note(&self, alloc: Global, before: Different) -> Result<Different, DocFault> {
        let names = note_settings(alloc, before, &self.settings)?;
        note_each(alloc, names, self.calls.as_slice())
    }
}

impl Naming for Client {
    ghost names = { names_in_client };

    fn note(&self, alloc: Global, before: Different) -> Result<Different, DocFault> {
        note_each(alloc, before, self.requests.as_slice())
    }
}

impl Naming for Event {
    ghost names = { names_in_event };

    fn note(&self, alloc: Global, before: Different) -> Result<Different, DocFault> {
        match self {
            Event::Outside { calls } => note_each(alloc, before, calls.as_slice()),
            _ => Ok(before),
        }
    }
}

/// The different names of settings, if they are not too many.
#[tactic(auto, using(crate::proofs::Naming::more_noted, crate::proofs::Naming::fails_noted))]
fn different_names(alloc: Global, document: &Document) -> Result<Different, DocFault>
    ensures { Gives result (noted_all [] (names_in document.now)) }
{
    let names = note_each(alloc, Listed::new(alloc), document.clients.as_slice())?;
    note_each(alloc, names, document.schedule.as_slice())
}

/// Refuses more than 16 different names of settings.
#[tactic(auto, using(crate::proofs::Naming::few_given, crate::proofs::Naming::few_fails))]
fn few_names(alloc: Global, document: &Document) -> Result<(), DocFault>
    ensures { Gives result (if_few_names document.now) }
{
    different_names(alloc, document)?;
    Ok(())
}

/// The document, if it has at most 2,048 calls and 16 different names of settings.
pub(crate) fn small(alloc: Global, document: Document) -> Result<Document, DocFault>
    ensures { Gives result (if_small document) }
{
    if !has_few_calls(&document) {
        return Err(DocFault::here(alloc, DocCode::Limit));
    }
    few_names(alloc, &document)?;
    Ok(document)
}
