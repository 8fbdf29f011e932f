//! The exit codes of the statuses.
use bm_base::Status;

#[test]
fn statuses_are_0_to_9(rt: HostRuntime) {
    let statuses = [
        Status::Done,
        Status::No,
        Status::Words,
        Status::Netlist,
        Status::Waveform,
        Status::ReadFault,
        Status::WriteFault,
        Status::Limit,
        Status::Memory,
        Status::Certificate,
    ];
    for (code, status) in (0u8..10).zip(statuses) {
        assert_eq!(rt; status.code(), code);
    }
}
