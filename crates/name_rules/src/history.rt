ghost use Rattle.std.specs.Prelude.{◌≡◌, ◌||◌, is_none, is_some, not, Some, None};
ghost use Rattle.vlog_tree.specs.Meaning.Ranges.{span};
ghost use Rattle.name_rules.specs.Declarations.{same_range};
ghost use Rattle.name_rules.specs.Histories.{is_bad_with, repeats, said_after, says_input, says_register};

use bm_base::Range;
use nets::span;
use vlog_tree::{Dir, NetKind};

// The greatest width of a name, in bits.
const GREATEST_WIDTH: usize = 65_536;

/// What the declarations of a name so far say of it.
#[derive(Clone, Copy, Debug, PartialEq, Eq)]
pub(crate) struct History {
    /// Some declaration has a direction.
    pub(crate) has_direction: bool,
    /// Some declaration has none.
    pub(crate) is_plain: bool,
    pub(crate) is_input: bool,
    pub(crate) is_register: bool,
    /// The range of the first declaration.
    pub(crate) range: Range,
    /// Some declaration has another range.
    pub(crate) differs: bool,
}

impl History {
    /// What they say with one declaration more.
    pub(crate) fn after(
        known: Option<History>,
        dir: Option<Dir>,
        kind: NetKind,
        range: Range,
    ) -> History
        ensures { result ≡ said_after known dir kind range }
    {
        match known {
            Some(history) => history.with(dir, kind, range),
            None => History {
                has_direction: dir.is_some(),
                is_plain: dir.is_none(),
                is_input: says_input(dir),
                is_register: says_register(kind),
                range,
                differs: false,
            },
        }
    }

    fn with(self, dir: Option<Dir>, kind: NetKind, range: Range) -> History
        ensures { result ≡ said_after (Some self) dir kind range }
    {
        History {
            has_direction: self.has_direction || dir.is_some(),
            is_plain: self.is_plain || dir.is_none(),
            is_input: self.is_input || says_input(dir),
            is_register: self.is_register || says_register(kind),
            range: self.range,
            differs: self.differs || !is_same(self.range, range),
        }
    }
}

/// Whether a declaration is wrong, by what is said of its name before it and with it.
pub(crate) fn is_bad(
    is_port: bool,
    known: Option<History>,
    after: History,
    dir: Option<Dir>,
    range: Range,
) -> bool
    ensures { result ≡ is_bad_with is_port known after dir range }
{
    repeats(known, dir)
        || ((dir.is_some() && !is_port)
            || (after.differs
                || ((after.is_input && after.is_register) || GREATEST_WIDTH < span(range))))
}

// Whether one more declaration, with a direction or without one, is one too many.
fn repeats(known: Option<History>, dir: Option<Dir>) -> bool
    ensures { result ≡ repeats known dir }
{
    match (known, dir) {
        (Some(history), Some(_)) => history.has_direction,
        (Some(history), None) => history.is_plain,
        (None, _) => false,
    }
}

fn says_input(dir: Option<Dir>) -> bool
    ensures { result ≡ says_input dir }
{
    match dir {
        Some(Dir::Input) => true,
        Some(Dir::Output) | None => false,
    }
}

fn says_register(kind: NetKind) -> bool
    ensures { result ≡ says_register kind }
{
    match kind {
        NetKind::Reg => true,
        NetKind::Plain | NetKind::Wire => false,
    }
}

fn is_same(range: Range, other: Range) -> bool
    ensures { result ≡ same_range range other }
{
    range.left == other.left && range.right == other.right
}
