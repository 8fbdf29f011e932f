//! Rule E4: the header lists each name once, and each has a direction; a name is declared once with a direction and once
//! without one at most, with one range, and no input is a register; and no instance or gate has the name of another thing.
ghost use Rattle.std.specs.Prelude.{◌≡◌, None, OnOk, Some, bytes_eq, cond, fold};
ghost use Rattle.hierarchy.specs.Failures.{earlier};
ghost use Rattle.vlog_tree.specs.Meaning.Uses.{Text};
ghost use Rattle.name_rules.specs.Declarations.{bad_declarations, bad_names, is_among};
ghost use Rattle.name_rules.specs.Headers.{has_in};
ghost use Rattle.name_rules.specs.Histories.{bad_declaration_by, history_in, said_of};

use crate::header::Header;
use crate::history::{History, is_bad};
use crate::owners::note_shared_names;
use bm_base::{NoMemory, Range};
use hierarchy::{Earliest, note_if};
use nets::Nets;
use std::alloc::Global;
use std::collections::HashMap;
use vlog_tree::{Item, Module};

// The range of a name of one bit.
const SCALAR: Range = Range { left: 0, right: 0 };

/// Notes what is wrong with the header of the module, with its declarations, and with names that more than one thing
/// has. Takes time that grows with the size of the module.
pub fn note_bad_names<'a>(
    alloc: Global,
    nets: &Nets<'a>,
    found: &mut Earliest<'a>,
) -> Result<(), NoMemory>
    ensures { OnOk result (found.new ≡ fold earlier found.old (bad_names nets.now)) }
{
    let header = Header::of(alloc, nets, found)?;
    note_bad_declarations(alloc, nets.module(), &header, found)?;
    note_shared_names(alloc, nets, found)
}

fn note_bad_declarations<'a>(
    alloc: Global,
    m: &'a Module,
    header: &Header<'a>,
    found: &mut Earliest<'a>,
) -> Result<(), NoMemory>
    requires { (name : Text) → has_in header.now name ≡ is_among m.now.ports name }
    ensures { OnOk result (found.new ≡ fold earlier found.old (bad_declarations m.now)) }
{
    let mut histories = Histories::new(alloc);
    for item in m.items.as_slice() {
        histories.take(m, header, item, found)?;
    }
    Ok(())
}

/// What the declarations so far say of each name that they declare.
#[derive(Drop)]
pub(crate) struct Histories<'a> {
    histories: HashMap<&'a [u8], History>,
}

impl<'a> Histories<'a> {
    fn new(alloc: Global) -> Histories<'a>
        ensures { (name : Text) → history_in result name ≡ None }
    {
        Histories {
            histories: HashMap::new(alloc),
        }
    }

    fn take(
        &mut self,
        m: &'a Module,
        header: &Header<'a>,
        item: &'a Item,
        found: &mut Earliest<'a>,
    ) -> Result<(), NoMemory>
        ensures found { OnOk result (found.new ≡ fold earlier found.old
            (bad_declaration_by m.now (has_in header.now) (history_in self.old) item.now)) }
        ensures said { OnOk result ((name : Text) → history_in self.new name
            ≡ said_of name (history_in self.old name) item.now) }
    {
        match item {
            Item::Decl {
                at,
                dir,
                kind,
                range,
                name,
            } => {
                let range = range.unwrap_or(SCALAR);
                let name = name.bytes();
                let known = self.get(name);
                let after = History::after(known, *dir, *kind, range);
                let is_bad = is_bad(header.has(name), known, after, *dir, range);
                note_if(is_bad, m, *at, name, found);
                self.set(name, after)
            }
            _ => Ok(()),
        }
    }

    fn get(&self, name: &[u8]) -> Option<History>
        ensures { result ≡ history_in self.now name.now }
    {
        self.histories.get(name).copied()
    }

    fn set(&mut self, name: &'a [u8], history: History) -> Result<(), NoMemory>
        ensures { OnOk result ((other : Text) → history_in self.new other
            ≡ cond (bytes_eq name.now other) (Some history) (history_in self.old other)) }
    {
        self.histories.insert(name, history)?;
        Ok(())
    }
}
