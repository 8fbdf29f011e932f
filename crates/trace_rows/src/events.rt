ghost use Rattle.trace_rows.specs.Events.{EventsAreListed, EventsAreIncreasing};

use crate::Place;

/// The list of a trace's events is complete, and is in the order of [`Place`].
pub fn events_are_listed()
    ensures listed { EventsAreListed }
    ensures increasing { EventsAreIncreasing ⟦<Place as Ord>⟧.cmp }
{}
