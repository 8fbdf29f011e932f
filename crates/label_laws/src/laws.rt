//! What the labels of a design have.
ghost use Rattle.label_laws.specs.Writable.{LabelsAreWritable, RowsAreInputs};

/// The labels of a design can be written, where some bytes spell it in the profile, it keeps the rules, and it has few
/// input bits.
pub fn labels_are_writable()
    ensures { LabelsAreWritable }
{
    rule_laws::laws::ready();
    rule_laws::laws::names();
}

/// A row of a design is as wide as its ports together.
pub fn rows_are_inputs()
    ensures { RowsAreInputs }
{}
