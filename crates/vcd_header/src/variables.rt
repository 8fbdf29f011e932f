ghost use Rattle.std.specs.Prelude.{◌≡◌, ◌∷◌, ◌++◌, [], IfSome, OnErr, OnOk};
ghost use Rattle.vcd_header.specs.Declares.{size_among};

use crate::declaration::Declaration;
use crate::sizes::Sizes;
use bm_base::NoMemory;
use std::alloc::Global;
use std::marker::Model;

/// Variables in the order of their declarations, seen by contracts as their list.
#[derive(Drop)]
pub(crate) struct Variables<'a> {
    list: Vec<Declaration<'a>>,
    sizes: Sizes<'a>,
}

impl<'a> Model for Variables<'a> {
    ghost use Rattle.std.specs.Prelude.{◌≡◌, ℕ, List};
    ghost use Rattle.vcd_header.specs.Declares.{size_among};
    ghost use Rattle.vcd_header.specs.Sizes.{size_in};
    ghost use Rattle.vcd_header.specs.declared.declaration.Declaration.{Declaration};

    ghost Value = { List Declaration };

    ghost view = { λ variables. variables.list.items };

    ghost invariant = { λ variables. (code : List ℕ) → size_in variables.sizes code
        ≡ size_among variables.list.items code };
}

impl<'a> Variables<'a> {
    pub(crate) fn new(alloc: Global) -> Variables<'a>
        ensures { result ≡ [] }
    {
        Variables {
            list: Vec::new(alloc),
            sizes: Sizes::new(alloc),
        }
    }

    pub(crate) fn list(&self) -> &[Declaration<'a>]
        ensures { result.now ≡ self.now }
    {
        &self.list
    }

    /// The size with which the code was declared first.
    pub(crate) fn size_of(&self, code: &[u8]) -> Option<u32>
        ensures { result ≡ size_among self.now code.now }
    {
        self.sizes.get(code)
    }

    /// Adds a variable, whose code is new or has its size.
    pub(crate) fn add(&mut self, declaration: Declaration<'a>) -> Result<(), NoMemory>
        requires { IfSome (size_among self.old declaration.code.now) (λ size. size ≡ declaration.size) }
        ensures ok { OnOk result (self.new ≡ self.old ++ declaration.entry ∷ []) }
        ensures err { OnErr result (self.new ≡ self.old) }
    {
        let count = self.list.len();
        let known = self.sizes.get(declaration.code);
        self.list.push(declaration)?;
        match known {
            Some(_) => Ok(()),
            None => match self.sizes.insert(declaration.code, declaration.size) {
                Ok(()) => Ok(()),
                Err(NoMemory) => {
                    self.list.truncate(count);
                    Err(NoMemory)
                }
            },
        }
    }
}
