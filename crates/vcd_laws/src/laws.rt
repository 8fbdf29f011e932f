//! What the definitions of the reader and the writer say together.
ghost use Rattle.vcd_laws.specs.Laws.{WrittenIsRead};

/// The text of a trace is a waveform of its labels, whose rows are the trace's and in which no bit is unknown.
pub fn written_is_read()
    ensures { WrittenIsRead }
{}
