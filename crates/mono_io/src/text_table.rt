//! Texts by name in memory, each with its place in a list.
ghost use Rattle.std.specs.Prelude.{◌≡◌, ◌<◌, [], None, MatchOption, OnOk, OnErr, length, position, bytes_eq, string_bytes};
ghost use Rattle.mono_io.specs.Shelf.{text_named};
ghost use Rattle.mono_io.specs.Texts.{entry_at, StandsAt, Puts};

use std::alloc::{AllocError, Global};
use std::marker::Model;

#[derive(Drop)]
struct Entry {
    name: String,
    text: Vec<u8>,
}

#[derive(Drop)]
pub(crate) struct TextTable {
    alloc: Global,
    entries: Vec<Entry>,
}

impl Model for TextTable {
    ghost use Rattle.mono_io.specs.Shelf.{Texts};

    ghost Value = { Texts };

    ghost use Rattle.mono_io.specs.Entries.{texts_of};

    ghost view = { λ table. texts_of table.entries.items };
}

fn position_of(entries: &[Entry], name: &str) -> Option<usize>
    ensures { result ≡ position (λ entry. bytes_eq (string_bytes entry.name) name.now) entries.now }
{
    entries.iter().position(|entry| entry.name.as_str() == name)
}

impl TextTable {
    pub(crate) fn new(alloc: Global) -> Self
        ensures { result ≡ [] }
    {
        TextTable {
            alloc,
            entries: Vec::new(alloc),
        }
    }

    /// The place of the text of that name.
    pub(crate) fn find(&self, name: &str) -> Option<usize>
        ensures { MatchOption result (text_named name.now self.now ≡ None) (StandsAt self.now name.now) }
    {
        position_of(&self.entries, name)
    }

    /// The text at a place.
    pub(crate) fn text(&self, at: usize) -> &[u8]
        requires { at < length self.now }
        ensures { result.now ≡ (entry_at self.now at).1 }
    {
        &self.entries[at].text
    }

    /// Adds a text, or replaces that of the same name.
    pub(crate) fn put(&mut self, name: &str, text: &[u8]) -> Result<(), AllocError>
        ensures ok { OnOk result (Puts self.old self.new name.now text.now) }
        ensures err { OnErr result (self.new ≡ self.old) }
    {
        let text = Vec::from_slice(self.alloc, text)?;
        match position_of(&self.entries, name) {
            Some(at) => self.entries[at].text = text,
            None => {
                let name = String::from_str(self.alloc, name)?;
                self.entries.push(Entry { name, text })?;
            }
        }
        Ok(())
    }
}
