// Check values of the CRCs that catalogues print, those of the ASCII digits 1 to 9; the longest message of many pieces;
// and a line-up of seven bytes, with its clone and the layout of that.
use bits::{crc8, crc16, spread};
use lineup::asked::Asked;
use lineup::line_up::StaircaseLineUp;
use messages::Sender;
use std::test::Fail;

#[test]
fn crcs_of_digits(rt: HostRuntime) {
    let mut bits = [false; 72];
    spread::<8>(b"123456789", &mut bits);
    assert_eq!(rt; crc8(&bits), 0x4b);
    assert_eq!(rt; crc16(&bits), 0xd64e);
}

// A block of 21 bytes has 15 of data, so that 1,024 pieces bring 15,360 bytes.
#[test]
fn a_thousand_and_twenty_four_pieces(rt: HostRuntime) -> Result<(), Fail> {
    let message = vec![in rt.alloc(); 7u8; 15361]?;
    assert!(rt; message.len() == 15361);
    let mut sender = Sender::new(rt.alloc(), 15)?;
    assert_eq!(rt; sender.load(message.as_slice()).map_err(u8::from), Err(13));
    assert_eq!(rt;
        sender.load(&message.as_slice()[0..15360]).map_err(u8::from),
        Ok(())
    );
    assert_eq!(rt;
        sender.load(&message.as_slice()[0..1]).map_err(u8::from),
        Err(11)
    );
    Ok(())
}

// 14 cells for the MIS and 51 for the TIS at 16-QAM, and a code of 56 bits and 56 checks on 56 of the others.
#[test]
fn a_clone_holds_the_same(rt: HostRuntime) -> Result<(), Fail> {
    let mut plan = [5; 345];
    plan[..14].fill(3);
    plan[14..65].fill(4);
    let mut line_up = StaircaseLineUp::new(rt.alloc())?;
    assert!(rt; line_up.layout().is_none());
    let done = line_up.fill(Asked {
        occupancy: 0,
        tis: 1,
        data: 0,
        rate: 0,
        plan: &plan,
        lift: 56,
        rows: 1,
        columns: 1,
        exponents: &[0],
    });
    assert_eq!(rt; done, Ok(()));
    let clone = line_up.clone()?;
    assert_eq!(rt; clone.block_length(), 7);
    assert!(rt; clone.plan() == line_up.plan());
    let layout = clone.layout().ok_or("no layout")?;
    assert_eq!(rt; layout.block_length(), 7);
    assert_eq!(rt; layout.data_cells(), 56);
    let code = layout.code.clone()?;
    assert!(rt; code.checks_hold(&[false; 112]));
    Ok(())
}
