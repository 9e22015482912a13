//! Names of servers that are lost at once.

ghost use Rattle.std.specs.Prelude.{◌≡◌, [], map, true, IfOk, All};
ghost use Rattle.std.specs.Str.{bytes_eq};
ghost use Rattle.dr_model.specs.LineText.{name_text, name_fits};
ghost use Rattle.dr_plan.specs.Above.{is_among};
ghost use Rattle.dr_plan.specs.Marks.{names_said};
ghost use Rattle.dr_plan.specs.Reading.{servers_fault};

use crate::reason::Reason;
use crate::words::is_word;
use dr_model::Name;
use dr_script::read_name;
use std::alloc::{AllocError, Global};
use std::marker::Model;

/// The servers that a disaster takes.
#[derive(Drop)]
pub struct Disaster {
    pub(crate) servers: Vec<Name>,
}

impl Model for Disaster {
    ghost use Rattle.std.specs.Prelude.{◌≡◌, true, List, All};
    ghost use Rattle.dr_model.specs.declared.step.Name.{Name};
    ghost use Rattle.dr_model.specs.LineText.{name_fits};

    ghost Value = { List Name };

    ghost view = { λ d. d.servers.items };

    ghost invariant = { λ d. All (λ (name : Name). name_fits name ≡ true) d.servers.items };
}

impl Disaster {
    /// The servers, in the order of the plan.
    pub fn servers(&self) -> &[Name]
        ensures servers { result.now ≡ self.now }
        ensures fit { All (λ name. name_fits name ≡ true) self.now }
    {
        &self.servers
    }
}

/// The bytes of a name.
pub fn name_bytes(name: &Name) -> &[u8]
    ensures { result.now ≡ name_text name.now }
{
    &name.bytes[..usize::from(name.len).min(24)]
}

/// Whether both are one name.
pub fn is_same_name(other: &Name, name: &Name) -> bool
    ensures { result ≡ bytes_eq (name_text other.now) (name_text name.now) }
{
    is_word(name_bytes(other), name_bytes(name))
}

fn is_among(name: &Name, names: &[Name]) -> bool
    ensures { result ≡ is_among name.now names.now }
{
    names.iter().any(|other| is_same_name(other, name))
}

/// The servers that words name; none where a word is no name.
pub(crate) fn read_names(alloc: Global, words: &[&[u8]]) -> Result<Option<Disaster>, AllocError>
    ensures { IfOk result (λ read. read ≡ names_said (map (λ word. word.now) words.now)) }
{
    let mut servers = Vec::new(alloc);
    for word in words {
        let Some(name) = read_name(word) else {
            return Ok(None);
        };
        servers.push(name)?;
    }
    Ok(Some(Disaster { servers }))
}

/// The first fault of a disaster's names: one that comes twice, or is none of the servers that are known.
pub(crate) fn servers_fault(known: &[Name], names: &[Name]) -> Option<Reason>
    ensures { result ≡ servers_fault known.now [] names.now }
{
    for i in 0..names.len() {
        let name = &names[i];
        if is_among(name, &names[..i]) {
            return Some(Reason::ServerTwice(*name));
        }
        if !is_among(name, known) {
            return Some(Reason::UnknownServer(*name));
        }
    }
    None
}
