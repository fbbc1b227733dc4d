// A notice from shore to ship: what an integrator writes to send it and to read it.
use lineup::asked::Asked;
use lineup::line_up::StaircaseLineUp;
use radio::{NavdatChannel, navdat_pair};
use std::alloc::Global;
use std::test::Fail;

// 1 kHz at 4-QAM: 14 cells for the MIS, 102 for the TIS, and a code of 224 bits and 224 checks on 224 of the others.
fn harbour(heap: Global) -> Result<StaircaseLineUp, Fail> {
    let mut plan = [5; 345];
    plan[..14].fill(3);
    plan[14..116].fill(4);
    let mut line_up = StaircaseLineUp::new(heap)?;
    // where this is refused the line-up stays empty, and nothing is loaded, sent or taken on it
    let filled = line_up.fill(Asked {
        occupancy: 0,
        tis: 0,
        data: 0,
        rate: 0,
        plan: &plan,
        lift: 56,
        rows: 4,
        columns: 4,
        exponents: &[0; 16],
    });
    filled.map_err(|_| "the line-up is refused")?;
    Ok(line_up)
}

#[test]
fn a_notice_from_shore_to_ship(rt: HostRuntime) -> Result<(), Fail> {
    let line_up = harbour(rt.alloc())?;
    let channel = NavdatChannel::default();
    let (mut exciter, mut receiver) = navdat_pair(rt.alloc(), &channel, line_up)?;
    // ashore: the station, and a notice that takes two frames
    let notice = b"Light buoy 7 is unlit, keep clear";
    assert_eq!(rt; exciter.station(2_320_011, 8, 30, 5), Ok(()));
    assert_eq!(rt; exciter.load(notice), Ok(()));
    // on the air: two numbers a cell; at sea every frame is taken
    let mut frame = [0; 690];
    let mut placings = ["", ""];
    for placing in placings.iter_mut() {
        assert_eq!(rt; exciter.send(&mut frame), Ok(()));
        if let Ok(taken) = receiver.take(&frame) {
            *placing = taken.placing.name();
        }
    }
    assert!(rt; placings == ["placed", "complete"]);
    // the notice, as it was loaded
    let mut read = [0; 64];
    assert_eq!(rt; receiver.fetch(&mut read), Ok(33));
    assert!(rt; read.starts_with(notice));
    Ok(())
}
