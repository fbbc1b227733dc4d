// The largest line-ups that may be asked for, and those beside them that may not.
use lineup::asked::Asked;
use lineup::line_up::StaircaseLineUp;
use std::test::Fail;

// The mode; the bytes of the plan; lift, check rows and columns; how many exponents; and the answer.
type Case = ([u32; 4], usize, [u32; 3], usize, Result<(), u8>);

const CASES: [Case; 15] = [
    ([3, 1, 2, 1], 3435, [160, 8, 24], 192, Ok(())),
    ([3, 1, 2, 0], 3435, [160, 16, 16], 256, Ok(())),
    ([4, 1, 2, 0], 3435, [160, 16, 16], 256, Err(1)),
    ([3, 2, 2, 0], 3435, [160, 16, 16], 256, Err(1)),
    ([3, 1, 3, 0], 3435, [160, 16, 16], 256, Err(1)),
    ([3, 1, 2, 2], 3435, [160, 16, 16], 256, Err(1)),
    ([3, 1, 2, 0], 3434, [160, 16, 16], 256, Err(2)),
    ([3, 1, 2, 0], 3436, [160, 16, 16], 256, Err(2)),
    ([3, 1, 2, 0], 3435, [161, 16, 16], 256, Err(5)),
    ([3, 1, 2, 0], 3435, [160, 17, 17], 289, Err(5)),
    ([3, 1, 2, 0], 3435, [160, 8, 24], 192, Err(5)),
    ([3, 1, 2, 1], 3435, [160, 16, 16], 256, Err(5)),
    ([3, 1, 2, 0], 3435, [160, 16, 16], 255, Err(5)),
    ([3, 1, 2, 0], 3435, [160, 16, 16], 257, Err(5)),
    ([3, 1, 2, 0], 3435, [159, 16, 16], 256, Err(6)),
];

// 14 cells for the MIS, 51 for the TIS at 16-QAM, and the others for the data; all exponents are 159.
#[test]
fn beside_the_largest(rt: HostRuntime) -> Result<(), Fail> {
    let mut bytes = [5; 3436];
    bytes[..14].fill(3);
    bytes[14..65].fill(4);
    let numbers = [159; 289];
    let mut line_up = StaircaseLineUp::new(rt.alloc())?;
    for ([occupancy, tis, data, rate], cells, [lift, rows, columns], count, answer) in CASES {
        let plan = bytes.get(..cells).ok_or("no such plan")?;
        let exponents = numbers.get(..count).ok_or("no such exponents")?;
        let done = line_up.fill(Asked {
            occupancy,
            tis,
            data,
            rate,
            plan,
            lift,
            rows,
            columns,
            exponents,
        });
        assert_eq!(rt; done.map_err(u8::from), answer);
    }
    assert_eq!(rt; line_up.block_length(), 960);
    Ok(())
}
