ghost use Rattle.std.specs.Prelude.{◌≡◌, ◌<◌, IfOk, Some, length};
ghost use Rattle.std.specs.Option.{option_map};
ghost use Rattle.hierarchy.specs.Graph.{name_at};
ghost use Rattle.hierarchy.specs.Reach.{reaches};
ghost use Rattle.vlog_tree.specs.Meaning.Instances.{module_named};

use bm_base::NoMemory;
use hierarchy::Hierarchy;
use nets::Nets;
use sqlite_items::Items;
use std::alloc::Global;
use std::marker::Model;
use vlog_tree::Module;

/// The modules of a design, each with what it says of its names. Contracts see it as the design and the name of its top.
#[derive(Drop)]
pub struct DesignNets<'a> {
    hierarchy: Hierarchy<'a>,
    tables: Items<Nets<'a>>,
}

impl<'a> Model for DesignNets<'a> {
    ghost use Rattle.std.specs.Prelude.{◌≡◌};
    ghost use Rattle.std.specs.Coded.{codes};
    ghost use Rattle.vlog_tree.specs.contracts.design.Design as tree;
    ghost use Rattle.hierarchy.specs.Indexed.{Topped};

    ghost Value = { Topped };

    ghost coded = { Prim.hlevel (codes, tree.the_row.coded) };

    ghost view = { λ it. it.hierarchy };

    ghost invariant = { λ it. it.tables ≡ it.hierarchy.design.modules };
}

impl<'a> DesignNets<'a> {
    /// Takes time that grows with the size of the design.
    pub fn of(alloc: Global, hierarchy: Hierarchy<'a>) -> Result<DesignNets<'a>, NoMemory>
        ensures { IfOk result (λ it. it ≡ hierarchy.entry) }
    {
        let tables = tables_of(alloc, hierarchy.modules())?;
        Ok(DesignNets { hierarchy, tables })
    }

    pub fn hierarchy(&self) -> &Hierarchy<'a>
        ensures { result.now ≡ self.now }
    {
        &self.hierarchy
    }

    /// What each module says of its names, in source order. Those that are not reached are among them.
    pub fn modules(&self) -> &[Nets<'a>]
        ensures { result.now ≡ self.now.design.modules }
    {
        self.tables.as_slice()
    }

    /// What the top says of its names.
    pub fn top(&self) -> &Nets<'a>
        ensures { module_named self.now.design self.now.top ≡ Some result.now }
    {
        &self.tables.as_slice()[self.hierarchy.top()]
    }

    /// Whether the module at a place is reached from the top.
    pub fn is_reached(&self, place: usize) -> bool
        requires { place < length self.now.design.modules }
        ensures { result ≡ reaches self.now.design self.now.top (name_at self.now.design.modules place) }
    {
        self.hierarchy.is_reached(place)
    }

    /// What the module of a name says of its names.
    pub fn named(&self, name: &[u8]) -> Option<&Nets<'a>>
        ensures { option_map (λ nets. nets.now) result ≡ module_named self.now.design name.now }
    {
        match self.hierarchy.place_of(name) {
            Some(place) => Some(&self.tables.as_slice()[place]),
            None => None,
        }
    }
}

fn tables_of<'a>(alloc: Global, modules: &'a [Module]) -> Result<Items<Nets<'a>>, NoMemory>
    ensures { IfOk result (λ tables. tables ≡ modules.now) }
{
    let mut tables = Items::new(alloc);
    for m in modules {
        tables.push(Nets::of(alloc, m)?)?;
    }
    Ok(tables)
}
