use crate::stop::Stop;
use bm_base::Name;
use elab::Names;
use std::alloc::Global;

/// What the words ask for.
#[derive(Drop)]
pub struct Asked {
    /// The netlist's path.
    pub file: String,
    pub names: Names,
    /// Whether the work ends once the rules are kept.
    pub rules_alone: bool,
}

impl Asked {
    /// `count.v top clk bad`, or `count.v top clk bad rules`
    pub fn read(alloc: Global, words: &[String]) -> Result<Asked, Stop> {
        match words {
            [file, top, clock, check] => Asked::of(alloc, file, top, clock, check, false),
            [file, top, clock, check, last] if last.as_str() == "rules" => {
                Asked::of(alloc, file, top, clock, check, true)
            }
            _ => Err(Stop::Words),
        }
    }

    fn of(
        alloc: Global,
        file: &str,
        top: &str,
        clock: &str,
        check: &str,
        rules_alone: bool,
    ) -> Result<Asked, Stop> {
        let names = Names {
            top: Name::new(alloc, top.as_bytes())?,
            clock: Name::new(alloc, clock.as_bytes())?,
            check: Name::new(alloc, check.as_bytes())?,
            reset: None,
            reset_cycles: 0,
        };
        Ok(Asked {
            file: String::from_str(alloc, file)?,
            names,
            rules_alone,
        })
    }
}
