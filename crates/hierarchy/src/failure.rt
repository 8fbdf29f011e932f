//! Where a rule fails.
ghost use Rattle.std.specs.Prelude.{◌≡◌, None};
ghost use Rattle.std.specs.Option.{option_map};
ghost use Rattle.hierarchy.specs.Failures.{earlier, failure};
ghost use Rattle.hierarchy.specs.Shown.{is_settled, shown};

use std::marker::Model;

/// A place of the source at which a rule fails, with what is printed: the module, which is empty where the name is
/// printed alone, and the name within it.
#[derive(Clone, Copy, Debug, PartialEq, Eq)]
pub struct Failure<'a> {
    pub at: u64,
    pub module_name: &'a [u8],
    pub name: &'a [u8],
}

/// The failure that stands first of those noted so far, if there is one.
#[derive(Debug, Drop)]
pub struct Earliest<'a> {
    found: Option<Failure<'a>>,
}

impl<'a> Model for Earliest<'a> {
    ghost use Rattle.std.specs.Prelude.{Option};
    ghost use Rattle.std.specs.Option.{option_map};
    ghost use Rattle.hierarchy.specs.Failures.{Failure as Shown};
    ghost use Rattle.hierarchy.specs.Shown.{shown};

    ghost Value = { Option Shown };

    ghost view = { λ earliest. option_map shown earliest.found };
}

impl<'a> Earliest<'a> {
    /// None is noted yet.
    pub fn new() -> Earliest<'a>
        ensures { result ≡ None }
    {
        Earliest { found: None }
    }

    /// Notes one more. Of two at one place the one that was noted first is kept.
    pub fn note(&mut self, at: u64, module_name: &'a [u8], name: &'a [u8])
        ensures { self.new ≡ earlier self.old (failure at module_name.now name.now) }
    {
        if !self.is_settled(at) {
            self.found = Some(Failure {
                at,
                module_name,
                name,
            });
        }
    }

    /// Whether one stands at this place or before it, so that none from here on is noted.
    pub fn is_settled(&self, at: u64) -> bool
        ensures { result ≡ is_settled self.now at }
    {
        match self.found {
            Some(found) => found.at <= at,
            None => false,
        }
    }

    /// The one that stands first.
    pub fn first(&self) -> Option<Failure<'a>>
        ensures { option_map shown result ≡ self.now }
    {
        self.found
    }
}
