//! What the definitions say.
ghost use Rattle.vcd_reader.specs.Changes.{ChangesGrow, TimesGrow};
ghost use Rattle.vcd_reader.specs.Examples.{ReadsExamples};
ghost use Rattle.vcd_reader.specs.Laws.{CyclesAreWithin, FaultsAreOfBytes, ShorterPassesNone, WaveformsFit};
ghost use Rattle.vcd_reader.specs.Rows.{EarlierSampled, EdgesGrow};
ghost use Rattle.vcd_reader.specs.Values.{ChangeGives, EarlierStay, NothingComes};

/// What the definitions say of small waveforms.
pub fn examples()
    ensures { ReadsExamples }
{}

/// How values and edges grow from the left to the right.
pub fn values_grow()
    ensures earlier { EarlierStay }
    ensures change { ChangeGives }
    ensures nothing { NothingComes }
    ensures edges { EdgesGrow }
    ensures sampled { EarlierSampled }
{}

/// How the changes and the times grow, item by item.
pub fn items_grow()
    ensures changes { ChangesGrow }
    ensures times { TimesGrow }
{}

/// What every reading is.
pub fn waveforms_fit()
    ensures { WaveformsFit }
{}

/// Of what kinds the faults of bytes are.
pub fn faults_are_of_bytes()
    ensures { FaultsAreOfBytes }
{}

/// What no limit refuses.
pub fn shorter_fits()
    ensures shorter { ShorterPassesNone }
    ensures cycles { CyclesAreWithin }
{}
