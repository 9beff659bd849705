//! Objects: which members stand there, and members that may be missing.
ghost use Rattle.std.specs.Prelude.{◌≡◌, map, OnOk, None, string_bytes};
ghost use Rattle.std.specs.List.{list_any};
ghost use Rattle.std.specs.Str.{bytes_eq};
ghost use Rattle.serde_json.specs.View.{view, members_view};
ghost use Rattle.json_form.specs.Faults.{Gives, GivesBy};
ghost use Rattle.json_form.specs.meaning.Values.{members_of};
ghost use Rattle.json_form.specs.meaning.Objects.{known as known_def, object_with as object_with_def};
ghost use Rattle.json_form.specs.Objects.{members_at};

use crate::fault::{DocCode, DocFault};
use crate::reader::Reader;
use crate::step::within;
use serde_json::{Map, Value};
use std::alloc::{AllocError, Global};

/// The members of an object, each of which is taken out once. Clauses see what stands at each name.
#[derive(Drop)]
pub struct Members {
    pub map: Map<String, Value>,
}

fn members_from(alloc: Global, value: Value) -> Result<Map<String, Value>, DocFault>
    ensures { GivesBy (λ m. members_view m.entries) result (members_of (view value)) }
{
    match value {
        Value::Object(members) => Ok(members),
        Value::Null | Value::Bool(_) | Value::Number(_) | Value::String(_) | Value::Array(_) => {
            Err(DocFault::here(alloc, DocCode::WrongKind))
        }
    }
}

/// The name is one of those named. The cost is their number.
pub fn is_among(names: &[&str], name: &str) -> bool
    ensures { result ≡ list_any (λ n. bytes_eq n.now name.now) names.now }
{
    names.iter().any(|known| *known == name)
}

fn known(alloc: Global, members: &Map<String, Value>, names: &[&str]) -> Result<(), DocFault>
    ensures { GivesBy (λ _. tt) result
        (known_def (map (λ n. n.now) names.now) (members_view members.now.entries)) }
{
    for (key, _member) in members.iter() {
        let name = key.as_str();
        if !is_among(names, name) {
            return Err(DocFault::at_member(alloc, name, DocCode::Unknown));
        }
    }
    Ok(())
}

/// The members of an object that has none but those named. The cost is the number of members times
/// the number of names.
pub fn object_with(alloc: Global, value: Value, names: &[&str]) -> Result<Members, DocFault>
    ensures { GivesBy members_at result (object_with_def (map (λ n. n.now) names.now)
        (view value)) }
{
    let map = members_from(alloc, value)?;
    known(alloc, &map, names)?;
    Ok(Members { map })
}

impl Members {
    ghost use Rattle.std.specs.Prelude.{option_map};
    ghost use Rattle.json_form.specs.meaning.Objects.{has as has_def, required as required_def, optional as optional_def};
    ghost use Rattle.json_form.specs.Objects.{without, putting};
    ghost use Rattle.json_form.specs.meaning.Objects.{all_there, member_in};

    /// No members.
    pub fn new(alloc: Global) -> Members
        ensures { members_at result ≡ (λ name. None) }
    {
        Members {
            map: Map::new(alloc),
        }
    }

    /// Puts a member there, in the place of one with the same name. The cost is logarithmic in
    /// their number.
    pub fn put(&mut self, name: String, member: Value) -> Result<(), AllocError>
        ensures { OnOk result
            (members_at self.new ≡ putting (string_bytes name) (view member) (members_at self.old)) }
    {
        drop(self.map.insert(name, member)?);
        Ok(())
    }

    /// Whether there is a member with this name.
    #[tactic(auto, unfolding(crate::specs::meaning::Objects::has))]
    pub fn has(&self, name: &str) -> bool
        ensures { result ≡ has_def name.now (members_at self.now) }
    {
        self.map.get(name).is_some()
    }

    /// The member with this name, which is not there from then on.
    pub fn take(&mut self, name: &str) -> Option<Value>
        ensures taken { option_map view result ≡ members_at self.old name.now }
        ensures left { members_at self.new ≡ without name.now (members_at self.old) }
    {
        self.map.remove(name)
    }

    /// A member that has to be there, taken out.
    #[tactic(auto, unfolding(crate::specs::meaning::Objects::required))]
    pub fn required(&mut self, alloc: Global, name: &str) -> Result<Value, DocFault>
        ensures read { GivesBy view result (required_def name.now (members_at self.old)) }
        ensures left { members_at self.new ≡ without name.now (members_at self.old) }
    {
        match self.take(name) {
            Some(member) => Ok(member),
            None => Err(DocFault::at_member(alloc, name, DocCode::Missing)),
        }
    }

    /// Refuses members among which one of these names is missing: the first one in this order is
    /// the fault.
    pub fn require(&self, alloc: Global, names: &[&str]) -> Result<(), DocFault>
        ensures { GivesBy (λ _. tt) result
            (all_there (map (λ n. n.now) names.now) (members_at self.now)) }
    {
        for name in names {
            if !self.has(name) {
                return Err(DocFault::at_member(alloc, name, DocCode::Missing));
            }
        }
        Ok(())
    }

    /// A member that has to be there, taken out and read. A fault is placed there.
    #[tactic(auto, unfolding(crate::specs::meaning::Objects::member_in))]
    pub fn read<T, R: Reader<T>>(
        &mut self,
        alloc: Global,
        name: &str,
        reader: &R,
    ) -> Result<T, DocFault>
        ensures read { Gives result
            (member_in name.now (R.Reader.reads reader.now) (members_at self.old)) }
        ensures left { members_at self.new ≡ without name.now (members_at self.old) }
    {
        let value = self.required(alloc, name)?;
        within(alloc, name, reader.read(alloc, value))
    }

    /// A member that may be missing, taken out and read. Where it is missing, `otherwise` stands
    /// for it.
    #[tactic(auto, unfolding(crate::specs::meaning::Objects::optional))]
    pub fn optional<T: Drop, R: Reader<T>>(
        &mut self,
        alloc: Global,
        name: &str,
        reader: &R,
        otherwise: T,
    ) -> Result<T, DocFault>
        ensures read { Gives result
            (optional_def name.now otherwise (R.Reader.reads reader.now) (members_at self.old)) }
        ensures left { members_at self.new ≡ without name.now (members_at self.old) }
    {
        match self.take(name) {
            Some(member) => within(alloc, name, reader.read(alloc, member)),
            None => Ok(otherwise),
        }
    }
}
